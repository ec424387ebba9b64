ghost use Rattle.std.specs.Prelude.{◌≡◌};
ghost use Rattle.std.specs.Str.{bytes_eq};
ghost use Rattle.request_refusals.specs.Members.{row_of, row_view, first_named as first_by_name, member_named as member_by_name};

/// What the value of a member of a search is. By null each has its default.
#[derive(Clone, Copy, Debug)]
pub enum Shape {
    /// A text.
    Text,
    /// A whole number from 0 to 2^64 - 1.
    Count,
    /// A truth value.
    Flag,
    /// A list of texts.
    Names,
    /// A list of at most 16 texts, each an attribute with `:asc` or `:desc` behind it.
    Criteria,
    /// `last` or `all`.
    Strategy,
    /// A text, or a list of texts and of lists of texts, each of which is a filter.
    Filter,
}

/// The members of a search. What each is stands in its row.
#[derive(Clone, Copy, Debug, PartialEq, Eq)]
pub enum SearchMember {
    Query,
    Offset,
    Limit,
    Page,
    HitsPerPage,
    Filter,
    Facets,
    Sort,
    AttributesToRetrieve,
    MatchingStrategy,
    ShowCosts,
    AttributesToHighlight,
    AttributesToCrop,
    CropLength,
    CropMarker,
    HighlightPreTag,
    HighlightPostTag,
    ShowMatchesPosition,
    Distinct,
}

/// All members.
const MEMBERS: [SearchMember; 19] = [
    SearchMember::Query,
    SearchMember::Offset,
    SearchMember::Limit,
    SearchMember::Page,
    SearchMember::HitsPerPage,
    SearchMember::Filter,
    SearchMember::Facets,
    SearchMember::Sort,
    SearchMember::AttributesToRetrieve,
    SearchMember::MatchingStrategy,
    SearchMember::ShowCosts,
    SearchMember::AttributesToHighlight,
    SearchMember::AttributesToCrop,
    SearchMember::CropLength,
    SearchMember::CropMarker,
    SearchMember::HighlightPreTag,
    SearchMember::HighlightPostTag,
    SearchMember::ShowMatchesPosition,
    SearchMember::Distinct,
];

/// A row of the table of members: the name, the code of the refusal of a value that the member does not have, and what
/// its value is.
#[derive(Clone, Copy, Debug)]
pub struct MemberRow {
    pub name: &'static str,
    pub code: &'static str,
    pub shape: Shape,
}

impl SearchMember {
    /// The member's row of the table.
    #[tactic(auto, unfolding(crate::specs::Members::row_of))]
    pub fn row(self) -> MemberRow
        ensures { row_view result ≡ row_of self }
    {
        match self {
            SearchMember::Query => row("q", "invalid_search_q", Shape::Text),
            SearchMember::Offset => row("offset", "invalid_search_offset", Shape::Count),
            SearchMember::Limit => row("limit", "invalid_search_limit", Shape::Count),
            SearchMember::Page => row("page", "invalid_search_page", Shape::Count),
            SearchMember::HitsPerPage => row(
                "hitsPerPage",
                "invalid_search_hits_per_page",
                Shape::Count,
            ),
            SearchMember::Filter => row("filter", "invalid_search_filter", Shape::Filter),
            SearchMember::Facets => row("facets", "invalid_search_facets", Shape::Names),
            SearchMember::Sort => row("sort", "invalid_search_sort", Shape::Criteria),
            SearchMember::AttributesToRetrieve => row(
                "attributesToRetrieve",
                "invalid_search_attributes_to_retrieve",
                Shape::Names,
            ),
            SearchMember::MatchingStrategy => row(
                "matchingStrategy",
                "invalid_search_matching_strategy",
                Shape::Strategy,
            ),
            SearchMember::ShowCosts => row("showCosts", "invalid_search_show_costs", Shape::Flag),
            SearchMember::AttributesToHighlight => row(
                "attributesToHighlight",
                "invalid_search_attributes_to_highlight",
                Shape::Names,
            ),
            SearchMember::AttributesToCrop => row(
                "attributesToCrop",
                "invalid_search_attributes_to_crop",
                Shape::Names,
            ),
            SearchMember::CropLength => row(
                "cropLength",
                "invalid_search_crop_length",
                Shape::Count,
            ),
            SearchMember::CropMarker => row(
                "cropMarker",
                "invalid_search_crop_marker",
                Shape::Text,
            ),
            SearchMember::HighlightPreTag => row(
                "highlightPreTag",
                "invalid_search_highlight_pre_tag",
                Shape::Text,
            ),
            SearchMember::HighlightPostTag => row(
                "highlightPostTag",
                "invalid_search_highlight_post_tag",
                Shape::Text,
            ),
            SearchMember::ShowMatchesPosition => row(
                "showMatchesPosition",
                "invalid_search_show_matches_position",
                Shape::Flag,
            ),
            SearchMember::Distinct => row("distinct", "invalid_search_distinct", Shape::Text),
        }
    }
}

fn row(name: &'static str, code: &'static str, shape: Shape) -> MemberRow
    ensures { row_view result ≡ record { name = name.now; code = code.now; shape = shape } }
{
    MemberRow { name, code, shape }
}

/// The member of a name, where a search has one. Takes no memory.
pub fn member_named(name: &str) -> Option<SearchMember>
    ensures { result ≡ member_by_name name.now }
{
    first_named(name, &MEMBERS)
}

fn first_named(name: &str, members: &[SearchMember]) -> Option<SearchMember>
    ensures { result ≡ first_by_name name.now members.now }
{
    for member in members {
        if is_named(*member, name) {
            return Some(*member);
        }
    }
    None
}

fn is_named(member: SearchMember, name: &str) -> bool
    ensures { result ≡ bytes_eq name.now (row_of member).name }
{
    name == member.row().name
}
