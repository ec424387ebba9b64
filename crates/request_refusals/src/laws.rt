ghost use Rattle.request_refusals.specs.Laws.{EachIsFound, EachHasItsCode};

/// No two members have one name, and the list of all has each.
pub fn each_member_is_found()
    ensures { EachIsFound }
{}

/// The code of a member's refusal is `invalid_search_` and the member's name, with `_` and a small letter for each
/// capital one.
pub fn each_member_has_its_code()
    ensures { EachHasItsCode }
{}
