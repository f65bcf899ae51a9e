// A record of a sheet: it is in form, so that each role which it names is its own.
ghost use Rattle.sheet.specs.Forms.{InForm, InForm-prop};
ghost use Rattle.sheet.specs.Rules.{rule_of};

use crate::record::Record;

#[derive(Clone, Copy)]
pub(crate) struct FormedRecord<'a> {
    pub(crate) record: &'a Record,
    ghost in_form: { InForm (rule_of record.now) } by { InForm-prop (rule_of record.now) },
}
