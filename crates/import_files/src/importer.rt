//! One assertion after another.

ghost use Rattle.std.specs.Prelude.{◌≡◌, IfOk, IfSome, is_some, unwrap_or, string_bytes};
ghost use Rattle.import_properties.specs.Properties.{form_of, both};
ghost use Rattle.import_properties.specs.Shapes.{written_form};
ghost use Rattle.import_checks.specs.Meanings.{IsMeaning};
ghost use Rattle.import_rewriting.specs.Rewriting.{IsRewriting};
ghost use Rattle.import_text.specs.Texts.{SaysRewriting};
ghost use Rattle.import_files.specs.Written.{FateSays, SaysProperty, whole_path};

use crate::declared::{first_unfit, has_unknown_type, note_variables};
use crate::halves::halves_of;
use crate::labels::Labels;
use crate::names::{first_missing, missing_clock, wide_clock};
use crate::outcome::{Cause, Fate, Half, Marks, Remark};
use crate::reading::Reading;
use crate::stop::{Stop, elsewhere, not_checked, not_rewritten, too_much};
use crate::vacuity::{joins_booleans, keeps_vacuity};
use import_checks::{is_meaning, mean_together};
use import_elaboration::{Opened, Opener, PartId, Parts};
use import_expressions::push_path;
use import_lowering::{Lowered, property_of};
use import_rewriting::{Rewriting, rewritten};
use import_scopes::{Assertion, File};
use import_text::{Spelling, says_rewriting};
use import_trees::Path;
use indexmap::IndexSet;
use std::alloc::{AllocError, Global};

/// How much work all assertions of a text may take beside that of each of its tokens.
const MOST_WORK: usize = 1_000_000;

/// How much work they may take for each token.
const WORK_OF_TOKEN: usize = 32;

/// What is known while the assertions of a file are written, one after another.
#[derive(Drop)]
pub(crate) struct Importer<'f, 't, 'w> {
    alloc: Global,
    file: &'f File<'t>,
    reading: Reading<'w>,
    /// The clock that counts, once one is known.
    clock: Option<Vec<u8>>,
    /// The nets and variables of the file that are read as signals.
    remarks: Vec<Remark>,
    /// The bytes of these.
    noted: IndexSet<usize>,
    /// How much work further assertions may take.
    left: usize,
    /// How much work one assertion took at the most, and the byte at which that begins.
    most: usize,
    heaviest: usize,
}

/// What becomes of an assertion, and what is told of it beside that.
#[derive(Drop)]
pub(crate) struct Told {
    pub fate: Fate,
    pub marks: Marks,
}

/// An assertion that isn't written, of which nothing else is told.
pub(crate) fn unwritten(fate: Fate) -> Told
    ensures { result.fate ≡ fate }
{
    let marks = Marks {
        bounded: false,
        vacuity: false,
        unknown_type: false,
    };
    Told { fate, marks }
}

/// Bytes of one's own.
fn owned(alloc: Global, bytes: &[u8]) -> Result<Vec<u8>, AllocError> {
    let mut all = Vec::new(alloc);
    all.extend_from_slice(bytes)?;
    Ok(all)
}

/// Bytes as a text; none where they are none.
fn text_of(alloc: Global, bytes: &[u8]) -> Result<String, AllocError> {
    match str::from_utf8(bytes) {
        Ok(text) => String::from_str(alloc, text),
        Err(_) => Ok(String::new(alloc)),
    }
}

impl<'f, 't, 'w> Importer<'f, 't, 'w> {
    /// Nothing is written yet, of a text of so many tokens.
    pub(crate) fn new(
        alloc: Global,
        file: &'f File<'t>,
        reading: Reading<'w>,
        tokens: usize,
    ) -> Result<Importer<'f, 't, 'w>, AllocError>
        ensures { IfOk result (λ importer. importer.reading ≡ reading.entry) }
    {
        let clock = match reading.clock {
            Some(clock) => Some(owned(alloc, clock)?),
            None => None,
        };
        Ok(Importer {
            alloc,
            file,
            reading,
            clock,
            remarks: Vec::new(alloc),
            noted: IndexSet::new(alloc),
            left: MOST_WORK.saturating_add(WORK_OF_TOKEN.saturating_mul(tokens)),
            most: 0,
            heaviest: 0,
        })
    }

    /// Takes note of the work that an assertion took which begins at a byte.
    fn spend(&mut self, work: usize, at: usize)
        ensures { self.new.reading ≡ self.old.reading }
    {
        self.left = self.left.saturating_sub(work);
        if work > self.most {
            self.most = work;
            self.heaviest = at;
        }
    }

    /// An assertion that begins at a byte, with all names written out, if further work may be done.
    fn opened(
        &mut self,
        opener: &mut Opener<'f, 't>,
        assertion: Assertion<'t>,
        at: usize,
    ) -> Result<Opened<'t>, Stop>
        ensures there { IfOk result (λ opened. opened.at ≡ at) }
        ensures kept { self.new.reading ≡ self.old.reading }
    {
        if self.left == 0 {
            return Err(too_much(self.heaviest));
        }
        if assertion.at != at {
            return Err(elsewhere(at));
        }
        let opened = opener.open(assertion);
        self.spend(opener.work(), at);
        Ok(opened?)
    }

    /// The whole path of a clock.
    fn clock_path(&self, clock: Path<'t>) -> Result<Vec<u8>, AllocError>
        ensures { IfOk result (λ path. path.items ≡ whole_path self.now.reading clock.entry) }
    {
        let mut path = Vec::new(self.alloc);
        push_path(&mut path, clock, self.reading.scope)?;
        Ok(path)
    }

    /// Whether a clock is the one that counts; the first one that is met is.
    fn counts(&mut self, clock: &[u8]) -> Result<bool, AllocError>
        ensures { self.new.reading ≡ self.old.reading }
    {
        match &self.clock {
            Some(known) => Ok(known.as_slice() == clock),
            None => {
                self.clock = Some(owned(self.alloc, clock)?);
                Ok(true)
            }
        }
    }

    /// The property that was opened, where it is shown to be what that means.
    fn meant(&self, parts: &mut Parts<'t>, opened: &Opened<'t>) -> Result<Lowered, Stop>
        ensures { IfOk result (λ lowered. IsMeaning parts.new self.now.reading.bound
            opened.now.body (form_of lowered.property)) }
    {
        let bound = self.reading.bound;
        let lowered = property_of(self.alloc, parts, opened.body, bound)?;
        if !is_meaning(parts, bound, opened.body, &lowered.property) {
            return Err(not_checked(opened.at));
        }
        Ok(lowered)
    }

    /// The properties of two halves, where both are shown to be together what was opened means.
    fn both_meant(
        &self,
        parts: &mut Parts<'t>,
        opened: &Opened<'t>,
        halves: (PartId, PartId),
    ) -> Result<(Lowered, Lowered), Stop>
        ensures { IfOk result (λ r. IsMeaning parts.new self.now.reading.bound
            opened.now.body (both (form_of r.0.property) (form_of r.1.property))) }
    {
        let bound = self.reading.bound;
        let one = property_of(self.alloc, parts, halves.0, bound)?;
        let other = property_of(self.alloc, parts, halves.1, bound)?;
        let (first, second) = (&one.property, &other.property);
        if !mean_together(parts, bound, opened.body, halves, first, second) {
            return Err(not_checked(opened.at));
        }
        Ok((one, other))
    }

    /// The rewriting of a property that was opened, and what is told of that.
    fn rewriting(
        &self,
        parts: &Parts<'t>,
        opened: &Opened<'t>,
        lowered: &Lowered,
    ) -> Result<(Rewriting, Marks), Stop>
        ensures { IfOk result (λ r. IsRewriting (unwrap_or self.now.reading.bound 127)
            lowered.now.property
            (written_form r.0.antecedent.value) (written_form r.0.consequent.value)) }
    {
        let bound = self.reading.bound.unwrap_or(127);
        let rewriting = match rewritten(self.alloc, bound, &lowered.property) {
            Ok(rewriting) => rewriting,
            Err(refusal) => return Err(not_rewritten(refusal, opened.at)),
        };
        let joined = joins_booleans(self.alloc, parts.parts.as_slice())?;
        let marks = Marks {
            bounded: lowered.bounded,
            vacuity: joined || !keeps_vacuity(&lowered.property, &rewriting),
            unknown_type: parts.has_unknown_type || has_unknown_type(parts),
        };
        Ok((rewriting, marks))
    }

    /// A text, where what it spells is the one assertion of that name that a rewriting is, by the
    /// clock of what was opened.
    fn read_back(
        &self,
        text: Vec<u8>,
        name: &str,
        rewriting: &Rewriting,
        opened: &Opened<'t>,
    ) -> Result<Vec<u8>, Stop>
        ensures { IfOk result (λ kept. SaysRewriting name.now
            (whole_path self.now.reading opened.now.clock) (is_some opened.now.disable)
            (written_form rewriting.now.antecedent.value)
            (written_form rewriting.now.consequent.value) kept.items) }
    {
        let antecedent = &rewriting.antecedent;
        let consequent = &rewriting.consequent;
        let is_disabled = opened.disable.is_some();
        let path = self.clock_path(opened.clock)?;
        if says_rewriting(
            self.alloc,
            text.as_slice(),
            name.as_bytes(),
            path.as_slice(),
            is_disabled,
            antecedent,
            consequent,
        )? {
            return Ok(text);
        }
        Err(Stop::Refused(Cause {
            code: "NotReadBack",
            hint: "its text would say something else: split the assertion, and tell us of it",
            at: opened.at,
        }))
    }

    /// The text of a property that was opened, and what is told of it.
    fn spelled(
        &self,
        parts: &Parts<'t>,
        opened: &Opened<'t>,
        lowered: &Lowered,
        name: &str,
    ) -> Result<(Vec<u8>, Marks), Stop>
        ensures { IfOk result (λ r. SaysProperty self.now.reading.bound lowered.now.property
            (whole_path self.now.reading opened.now.clock) (is_some opened.now.disable)
            name.now r.0.items) }
    {
        let (rewriting, marks) = self.rewriting(parts, opened, lowered)?;
        let Reading { scope, widths, .. } = self.reading;
        let mut spelling = Spelling::new(self.alloc, parts, scope, widths);
        let spelled = spelling.assertion(name.as_bytes(), opened, &rewriting)?;
        let text = self.read_back(spelled, name, &rewriting, opened)?;
        let unknown_type = marks.unknown_type || spelling.has_unknown_width();
        Ok((
            text,
            Marks {
                bounded: marks.bounded,
                vacuity: marks.vacuity,
                unknown_type,
            },
        ))
    }

    /// What was opened as one assertion.
    fn whole(&self, parts: &mut Parts<'t>, opened: &Opened<'t>, name: &str) -> Result<Told, Stop>
        ensures { IfOk result (λ told.
            FateSays self.now.reading opened.now.at name.now told.fate) }
    {
        let lowered = self.meant(parts, opened)?;
        let (text, marks) = self.spelled(parts, opened, &lowered, name)?;
        let fate = Fate::Written(text);
        Ok(Told { fate, marks })
    }

    /// The assertion of one half, under a name of its own.
    fn half(
        &self,
        parts: &Parts<'t>,
        opened: &Opened<'t>,
        lowered: &Lowered,
        name: String,
    ) -> Result<(Half, Marks), Stop>
        ensures { IfOk result (λ r. SaysProperty self.now.reading.bound lowered.now.property
            (whole_path self.now.reading opened.now.clock) (is_some opened.now.disable)
            (string_bytes r.0.name) r.0.text.items) }
    {
        let (text, marks) = self.spelled(parts, opened, lowered, name.as_str())?;
        Ok((Half { name, text }, marks))
    }

    /// The two assertions for what was opened, whose names end in `__1` and `__2`; none where it
    /// has no two halves.
    fn halved(
        &self,
        parts: &mut Parts<'t>,
        opened: &Opened<'t>,
        name: &str,
        labels: &mut Labels,
    ) -> Result<Option<Told>, Stop>
        ensures { IfOk result (λ some. IfSome some (λ told.
            FateSays self.now.reading opened.now.at name.now told.fate)) }
    {
        let alloc = self.alloc;
        let Some(halves) = halves_of(alloc, parts, opened.body)? else {
            return Ok(None);
        };
        let (first, second) = self.both_meant(parts, opened, halves)?;
        let first_name = labels.take(alloc, format!(in alloc; "{name}__1")?.as_str())?;
        let (one, marks) = self.half(parts, opened, &first, first_name)?;
        let second_name = labels.take(alloc, format!(in alloc; "{name}__2")?.as_str())?;
        let (other, more) = self.half(parts, opened, &second, second_name)?;
        Ok(Some(Told {
            fate: Fate::Halves(one, other),
            marks: Marks {
                bounded: marks.bounded || more.bounded,
                vacuity: marks.vacuity || more.vacuity,
                unknown_type: marks.unknown_type || more.unknown_type,
            },
        }))
    }

    /// What was opened as one assertion, or as two where it is too heavy.
    fn spelled_or_halved(
        &self,
        parts: &mut Parts<'t>,
        opened: &Opened<'t>,
        name: &str,
        labels: &mut Labels,
    ) -> Result<Told, Stop>
        ensures { IfOk result (λ told.
            FateSays self.now.reading opened.now.at name.now told.fate) }
    {
        let stop = match self.whole(parts, opened, name) {
            Ok(told) => return Ok(told),
            Err(stop) => stop,
        };
        if self.reading.split && stop.is_heavy() {
            if let Some(told) = self.halved(parts, opened, name, labels)? {
                return Ok(told);
            }
        }
        Err(stop)
    }

    /// What becomes of an assertion that begins at a byte, and is written under a name.
    fn written(
        &mut self,
        assertion: Assertion<'t>,
        at: usize,
        name: &str,
        labels: &mut Labels,
    ) -> Result<Told, Stop>
        ensures said { IfOk result (λ told.
            FateSays self.old.reading at name.now told.fate) }
        ensures kept { self.new.reading ≡ self.old.reading }
    {
        let mut opener = Opener::new(self.alloc, self.file);
        let opened = self.opened(&mut opener, assertion, at)?;
        let clock = self.clock_path(opened.clock)?;
        let path = clock.as_slice();
        if let Some(missing) = missing_clock(self.alloc, &self.reading, path, at)? {
            return Ok(unwritten(Fate::Unknown(missing)));
        }
        if let Some(cause) = wide_clock(&self.reading, path, at) {
            return Ok(unwritten(Fate::Refused(cause)));
        }
        if !self.counts(clock.as_slice())? {
            let clock = text_of(self.alloc, clock.as_slice())?;
            return Ok(unwritten(Fate::OtherClock(clock)));
        }
        if let Some(missing) = first_missing(self.alloc, opener.parts(), &self.reading)? {
            return Ok(unwritten(Fate::Unknown(missing)));
        }
        if let Some(cause) = first_unfit(self.alloc, opener.parts(), &self.reading)? {
            return Ok(unwritten(Fate::Refused(cause)));
        }
        let (alloc, reading) = (self.alloc, self.reading);
        let (remarks, noted) = (&mut self.remarks, &mut self.noted);
        note_variables(alloc, remarks, noted, opener.parts(), &reading)?;
        self.spelled_or_halved(&mut opener.made, &opened, name, labels)
    }

    /// What is told beside the assertions.
    pub(crate) fn into_remarks(self) -> Vec<Remark> {
        self.remarks
    }

    /// What becomes of an assertion that begins at a byte, and is written under a name, if it can
    /// be.
    pub(crate) fn told(
        &mut self,
        assertion: Assertion<'t>,
        at: usize,
        name: &str,
        labels: &mut Labels,
    ) -> Result<Told, AllocError>
        ensures said { IfOk result (λ told.
            FateSays self.old.reading at name.now told.fate) }
        ensures kept { self.new.reading ≡ self.old.reading }
    {
        match self.written(assertion, at, name, labels) {
            Ok(told) => Ok(told),
            Err(Stop::Refused(cause)) => Ok(unwritten(Fate::Refused(cause))),
            Err(Stop::Memory) => Err(AllocError),
        }
    }
}
