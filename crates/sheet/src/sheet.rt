// A sheet: records that are all in form, at most 64 of them.
ghost use Rattle.std.specs.Prelude.{◌≤◌, map, vec_len};
ghost use Rattle.std.specs.List.{AllByRecursion};
ghost use Rattle.sheet.specs.Forms.{InForm, all_in_form-prop};
ghost use Rattle.sheet.specs.Rules.{rule_of};

use crate::record::Record;

#[derive(Drop)]
pub struct Sheet {
    pub(crate) records: Vec<Record>,
    ghost few: { vec_len records ≤ 64 },
    ghost in_form: { AllByRecursion InForm (map rule_of records.items) } by { all_in_form-prop (map rule_of records.items) },
}
