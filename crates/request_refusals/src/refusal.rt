use crate::member::SearchMember;
use search_base::Word;

/// Why a request is refused, by its first fault.
#[derive(Debug, Drop)]
pub enum Refusal {
    /// No route has the path.
    NoRoute,
    /// A route has the path, and none has it with this method.
    MethodNotAllowed,
    /// The uid of the path or the body is not 1 to 400 bytes of ASCII letters, digits, `-` and `_`.
    InvalidUid,
    /// The path's part behind `tasks` is not 1 to 19 decimal digits without a leading zero.
    InvalidTaskUid,
    /// A name of the query string or a member of the body that the route does not have, or whose value has a wrong
    /// shape. The name `body` stands for a whole body that is to be an object.
    Unknown { name: Word },
    /// This member of a search has a wrong shape.
    InvalidSearch { member: SearchMember },
    /// A text of the filter, by its number from 1, is neither blank nor a filter. Up to the byte at this place, from
    /// 0, it begins one.
    FilterSyntax { text: u32, place: u32 },
    /// In a text of the filter, by its number from 1, a NOT or a bracket opens at this place inside 200 others.
    FilterTooDeep { text: u32, place: u32 },
    /// A value of the filter is compared by order and is no whole number from -2^63 to 2^64 - 1.
    FilterNotANumber { value: Word },
    /// The body is no JSON text.
    NotJson,
    /// The body of added documents is neither an object nor an array.
    NotList,
    /// This document of the body, from 1, is no object.
    NotObject { document: u32 },
    /// This document, from 1, has a number that is not whole. The path is the first in the order of the walk.
    NumberNotWhole { document: u32, path: Word },
    /// The member of a list of ids at this place, from 1, is no id.
    BadListedId { place: u64 },
    /// The body of an index that is to be made has no `uid`.
    MissingUid,
    /// This member of a patch of settings has a wrong shape, or passes a limit.
    BadSettings { name: Word },
    /// This text of a patch's ranking rules names no rule.
    BadRankingRule { text: Word },
    /// The body of several searches has no list `queries`, or the list has more than 100 members, or one is no object.
    BadQueries,
    /// This query of several searches, from 1, has no `indexUid`.
    MissingQueryUid { query: u64 },
    /// The body of a search of a facet's values has no `facetName`.
    MissingFacetName,
    /// The facet's name is no text, or the settings do not let a search filter by it.
    InvalidFacetName,
    /// The text that the facet's values are to begin with is neither a text nor null.
    InvalidFacetQuery,
    /// The machine has no index of this uid.
    NoIndex { uid: Word },
    /// No task of this number waits, and none of it is among the last 1,000 that finished.
    NoTask { number: u64 },
    /// No document of the index has this external id.
    NoDocument { id: Word },
    /// 1,000,000,000 tasks were accepted.
    ChangesSpent,
    /// A search sorts, and the ranking rules of the index do not.
    NoSortRule,
    /// The settings do not let a search sort by this attribute.
    NotSortable { attribute: Word },
    /// The settings do not let a search filter by this attribute.
    NotFilterable { attribute: Word },
    /// The settings do not let a search count the values of this attribute.
    NotFacet { attribute: Word },
}
