//! Why a request is refused, why a task fails, and the table of the members of a search.
//!
//! A `Refusal` holds data and promises nothing. Contracts see it as itself: a call that may be refused, or find no
//! memory, answers with a `Fault<Refusal>`, and its contract says which refusal it is. What a request asks for may be
//! accepted and refused at its turn: a `TaskRefusal` has a number, by which the outcome of the task is kept, and a
//! code, which `task_code` gives for the number. A `SearchMember` has one row of the table, `row_of` in
//! specs/Members.antt, which contracts see through `row_view`: its name, the code of its refusal, and what its value
//! is. Each member is found by its name (`each_member_is_found`), and its code is made of its name
//! (`each_member_has_its_code`). Stands on search_base for words.
#![tactic(auto)]

mod laws;
mod member;
mod refusal;
mod tasks;

pub use laws::{each_member_has_its_code, each_member_is_found};
pub use member::{MemberRow, SearchMember, Shape, member_named};
pub use refusal::Refusal;
pub use tasks::{TaskRefusal, task_code};
