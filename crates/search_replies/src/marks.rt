// What the texts of hits are marked by.
ghost use Rattle.std.specs.Prelude.{◌≡◌, IfOk};
ghost use Rattle.search_call.specs.FormatView.{formats_texts};
ghost use Rattle.search_replies.specs.Formatted.{format_for, format_if};
ghost use Rattle.search_replies.specs.Marks.{terms_if};

use crate::crops::CropSet;
use crate::names::NameSet;
use hit_format::{Format, TermSet};
use search_base::{NoMemory, Term};
use search_call::FormatCall;
use std::alloc::Global;
use std::marker::Model;

/// By what the texts of hits are marked, and which of them: made once for all hits of a reply.
#[derive(Drop)]
pub(crate) struct Marks<'a> {
    formats: &'a FormatCall,
    terms: TermSet<'a>,
    highlight: NameSet,
    crops: CropSet,
}

impl<'a> Model for Marks<'a> {
    ghost use Rattle.std.specs.Coded.{codes};
    ghost use Rattle.search_replies.specs.Marks.{MarksView, AreSets};

    ghost Value = { MarksView };

    ghost coded = { Prim.hlevel codes };

    ghost view = { λ marks. record { formats = marks.formats.now; terms = marks.terms } };

    ghost invariant = { λ marks. AreSets marks.formats.now marks.highlight marks.crops };
}

impl<'a> Marks<'a> {
    /// Those of a search that matched texts by these terms. Where it shows no matches, the terms are not looked at.
    pub(crate) fn new(
        alloc: Global,
        formats: &'a FormatCall,
        terms: &'a [Term],
    ) -> Result<Marks<'a>, NoMemory>
        ensures { IfOk result (λ marks. marks
            ≡ record { formats = formats.now; terms = terms_if formats.now terms.now }) }
    {
        let used = terms_if(formats, terms);
        Ok(Marks {
            formats,
            terms: TermSet::new(alloc, used)?,
            highlight: NameSet::given(alloc, &formats.highlight)?,
            crops: CropSet::given(alloc, &formats.crop)?,
        })
    }

    /// The terms.
    pub(crate) fn terms(&self) -> &TermSet<'a>
        ensures { result.now ≡ self.now.terms }
    {
        &self.terms
    }

    /// Whether hits show formatted texts.
    pub(crate) fn formats_texts(&self) -> bool
        ensures { result ≡ formats_texts self.now.formats }
    {
        self.formats.formats_texts()
    }

    /// Whether hits say where matched words stand.
    pub(crate) fn shows_positions(&self) -> bool
        ensures { result ≡ self.now.formats.positions }
    {
        let formats = self.formats;
        formats.positions
    }

    /// How the texts of a member are shown, where they are shown otherwise than they are stored.
    pub(crate) fn format(&self, name: &str) -> Result<Option<Format>, NoMemory>
        ensures { IfOk result (λ how. how ≡ format_for self.now.formats name.now) }
    {
        format_if(
            self.formats,
            self.highlight.has(name),
            self.crops.length(name),
        )
    }
}

fn terms_if<'a>(formats: &FormatCall, terms: &'a [Term]) -> &'a [Term]
    ensures { result.now ≡ terms_if formats.now terms.now }
{
    if formats.shows_matches() { terms } else { &[] }
}

// How a text is shown, where it is marked or cropped.
fn format_if(
    formats: &FormatCall,
    highlight: bool,
    crop: Option<u64>,
) -> Result<Option<Format>, NoMemory>
    ensures { IfOk result (λ how. how ≡ format_if formats.now highlight crop) }
{
    if !highlight && crop.is_none() {
        return Ok(None);
    }
    Ok(Some(Format {
        highlight,
        pre: formats.pre.clone()?,
        post: formats.post.clone()?,
        crop,
        marker: formats.marker.clone()?,
    }))
}
