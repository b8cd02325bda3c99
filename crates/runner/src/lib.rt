// The operations on a file: starting and calling, on both forms, and their answers in words.
#![tactic(auto)]

pub mod accepted;
pub mod answers;
pub mod expanded;
pub mod interface;
pub mod layout;
pub mod steps;
pub mod unexpanded;

ghost use Rattle.walker.specs.Tables.{EntriesIn};
ghost use Rattle.runner.specs.Tables.{FieldsIn};

use rules::Fields;
use walker::entries::Entries;
use walker::steps::Steps;

// What a call on the expanded form goes by: the steps, the agreement's fields, and the places of the kind 1 steps.
#[derive(Clone, Copy)]
pub struct Prepared<'s, 'e> {
    pub steps: Steps<'s>,
    pub fields: Fields,
    pub entries: &'e Entries,
    pub ghost are_fields: { FieldsIn steps.file.now steps.words.now fields },
    pub ghost entered: { EntriesIn steps.file.now steps.words.now entries.now },
}
