// The attributes that a search counts.
ghost use Rattle.std.specs.Prelude.{◌≡◌, ◌≤◌, ◌++◌, length, map, flat_map, IfOk, OnOk};
ghost use Rattle.search_settings.specs.Asked.{names_for, facet_names as names_counted, facet_path, paths_asked};

use crate::rules::path_named;
use facet_counts::{FacetPath, in_order};
use index_settings::Settings;
use search_base::{NoMemory, Word};
use search_call::SearchCall;
use std::alloc::Global;

/// The attributes that a search counts, none where it does not ask for counts.
pub fn asked_paths(
    alloc: Global,
    settings: &Settings,
    paths: &[Word],
    call: &SearchCall,
) -> Result<Vec<FacetPath>, NoMemory>
    requires { length paths.now ≤ 1000 }
    ensures { IfOk result (λ asked. asked.items ≡ paths_asked settings.now paths.now call.now.facets) }
{
    match &call.facets {
        Some(names) => facet_paths(alloc, settings, paths, names),
        None => Ok(Vec::new(alloc)),
    }
}

// The attributes that these names name, in the order of their bytes and each once, with their paths in the registry.
fn facet_paths(
    alloc: Global,
    settings: &Settings,
    paths: &[Word],
    names: &[Word],
) -> Result<Vec<FacetPath>, NoMemory>
    requires { length paths.now ≤ 1000 }
    ensures { IfOk result (λ asked. asked.items ≡ map (facet_path paths.now) (names_counted settings.now names.now)) }
{
    let names = all_names(alloc, settings, names)?;
    let names = in_order(alloc, &names)?;
    let mut asked = Vec::with_capacity(alloc, names.len())?;
    for attribute in names {
        asked.push(path_of(paths, attribute))?;
    }
    Ok(asked)
}

fn path_of(paths: &[Word], attribute: Word) -> FacetPath
    requires { length paths.now ≤ 1000 }
    ensures { result ≡ facet_path paths.now attribute }
{
    let path = path_named(paths, &attribute);
    FacetPath { attribute, path }
}

// The names, where `*` stands for each attribute by which the settings let a search filter.
fn all_names(alloc: Global, settings: &Settings, names: &[Word]) -> Result<Vec<Word>, NoMemory>
    ensures { IfOk result (λ all. all.items ≡ flat_map (names_for settings.now) names.now) }
{
    let mut all = Vec::new(alloc);
    for name in names {
        add_names(settings, name, &mut all)?;
    }
    Ok(all)
}

fn add_names(settings: &Settings, name: &Word, all: &mut Vec<Word>) -> Result<(), NoMemory>
    ensures { OnOk result (all.new.items ≡ all.old.items ++ names_for settings.now name.now) }
{
    if name.as_str() == "*" {
        return add_copies(settings.filterable_attributes(), all);
    }
    all.push(name.clone()?)?;
    Ok(())
}

fn add_copies(names: &[Word], all: &mut Vec<Word>) -> Result<(), NoMemory>
    ensures { OnOk result (all.new.items ≡ all.old.items ++ names.now) }
{
    for name in names {
        all.push(name.clone()?)?;
    }
    Ok(())
}
