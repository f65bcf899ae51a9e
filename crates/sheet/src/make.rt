// Making a sheet from records of any content, and what it answers as a catalogue.
ghost use Rattle.std.specs.Prelude.{◌≡◌, ◌+◌, ◌≤◌, [], map, length, Err, MatchOption, MatchResult};
ghost use Rattle.std.specs.List.{AllByRecursion};
ghost use Rattle.sheet.specs.Forms.{InForm};
ghost use Rattle.catalogue.specs.Entries.{no_entry, numbered};
ghost use Rattle.catalogue.specs.declared.refusal.CatalogueRefusal.{CatalogueRefusal};
ghost use Rattle.sheet.specs.Meaning.{meaning};
ghost use Rattle.sheet.specs.Rules.{rule_of};
ghost use Rattle.sheet.specs.Sheets.{FirstOutOfForm, SheetOf, entries_of};
ghost use Rattle.sheet.specs.Read.{few_entries, all_typed, all_sized};

use crate::formed::FormedRecord;
use crate::record::Record;
use crate::sheet::Sheet;
use catalogue::catalogue::Catalogue;
use catalogue::refusal::CatalogueRefusal;
use catalogue::strategy::StrategyType;
use contracts::leg::Leg;
use std::alloc::Global;

// The place of the first record that is out of form, from 0.
fn first_out_of_form(records: &[Record]) -> Option<usize>
    ensures { MatchOption result
        (AllByRecursion InForm (map rule_of records.now))
        (λ i. FirstOutOfForm (map rule_of records.now) (i + 1)) }
{
    records.iter().position(|record| !record.in_form())
}

// A record out of form is told before there being too many. Records are numbered from 1.
fn refuse(records: &[Record]) -> Result<(), CatalogueRefusal>
    ensures { MatchResult result
        (λ _. AllByRecursion InForm (map rule_of records.now) × (length (map rule_of records.now) ≤ 64))
        (λ e. SheetOf (map rule_of records.now) (Err e)) }
{
    if let Some(place) = first_out_of_form(records) {
        return Err(CatalogueRefusal::OutOfForm { record: place + 1 });
    }
    if records.len() > 64 {
        return Err(CatalogueRefusal::TooManyRecords);
    }
    Ok(())
}

impl Sheet {
    pub fn new(records: Vec<Record>) -> Result<Sheet, CatalogueRefusal>
        ensures outcome { SheetOf (map rule_of records.items) result }
        ensures refused { (e : CatalogueRefusal) → SheetOf (map rule_of records.items) (Err e) → result ≡ Err e }
    {
        refuse(&records)?;
        Ok(Sheet { records })
    }

    // A sheet of no entries.
    pub fn empty(heap: Global) -> Sheet
        ensures { entries_of result ≡ [] }
    {
        Sheet {
            records: Vec::new(heap),
        }
    }

    // The record of an entry, or none for 0 and beyond the count.
    #[tactic(auto, using(crate::specs::Read::numbered_at, crate::specs::Read::in_form_at))]
    fn record_of(&self, entry: usize) -> Option<FormedRecord<'_>>
        ensures { MatchOption result
            (numbered (entries_of self.now) entry ≡ no_entry)
            (λ x. numbered (entries_of self.now) entry ≡ meaning (rule_of x.record.now)) }
    {
        let record = self.records.get(entry.checked_sub(1)?)?;
        Some(FormedRecord { record })
    }
}

impl Catalogue for Sheet {
    ghost entries = { entries_of };

    ghost few = { few_entries };

    ghost typed = { all_typed };

    ghost sized = { all_sized };

    fn count(&self) -> usize {
        self.records.len()
    }

    fn type_of(&self, entry: usize) -> StrategyType {
        self.record_of(entry).map_or(
            StrategyType {
                first: b'-',
                second: b'-',
            },
            |formed| formed.record.strategy,
        )
    }

    fn role_count(&self, entry: usize) -> usize {
        self.record_of(entry)
            .map_or(0, |formed| formed.record.roles.len())
    }

    fn fits(&self, entry: usize, row: &[Leg]) -> bool {
        self.record_of(entry).is_some_and(|formed| formed.fits(row))
    }
}
