//! What GTKWave calls the variables of a dump.

ghost use Rattle.std.specs.Prelude.{◌≡◌, ◌++◌, IfOk, OnOk, map};
ghost use Rattle.vcd_declarations.specs.Declarations.{declarations};
ghost use Rattle.vcd_declarations.specs.Views.{fields_of, scopes_in};
ghost use Rattle.report_gtkwave.specs.Waves.{is_plain, bits_of, suffix_by, suffix_in, wave_of};
ghost use Rattle.report_gtkwave.specs.Views.{wave_data};

use crate::scale::scale_in;
use std::alloc::{AllocError, Global};
use vcd_declarations::{Header, Spelling, Variable};

/// A variable: its path, and what stands behind that in its name.
#[derive(Drop)]
pub(crate) struct Wave {
    pub spelling: Spelling,
    pub suffix: Vec<u8>,
}

/// What GTKWave calls the variables of a dump, and what it counts time in.
#[derive(Drop)]
pub struct Waves {
    pub(crate) waves: Vec<Wave>,
    /// So many units of GTKWave are one of the dump.
    pub(crate) scale: u64,
}

/// Whether values of a kind are shown as numbers without bits.
fn is_plain(kind: &[u8]) -> bool
    ensures { result ≡ is_plain kind.now }
{
    kind == b"integer".as_slice() || kind == b"parameter".as_slice()
}

/// Adds the range that so many bits have, if they are several.
fn push_bits(alloc: Global, suffix: &mut Vec<u8>, size: u32) -> Result<(), AllocError>
    ensures { OnOk result (suffix.new.items ≡ suffix.old.items ++ bits_of size) }
{
    if size <= 1 {
        return Ok(());
    }
    let most = size - 1;
    let text = format!(in alloc; "[{most}:0]")?;
    suffix.extend_from_slice(text.as_bytes())
}

/// What stands behind the path of a variable of this kind, declared range and size.
fn suffix_by(alloc: Global, kind: &[u8], range: &[u8], size: u32) -> Result<Vec<u8>, AllocError>
    ensures { IfOk result (λ s. s.items ≡ suffix_by kind.now range.now size) }
{
    let mut suffix = Vec::new(alloc);
    if is_plain(kind) {
        return Ok(suffix);
    }
    if range.is_empty() {
        push_bits(alloc, &mut suffix, size)?;
        return Ok(suffix);
    }
    suffix.extend_from_slice(range)?;
    Ok(suffix)
}

/// A variable inside the open scopes of a header.
fn wave_of(alloc: Global, header: &Header<'_>, variable: &Variable<'_>) -> Result<Wave, AllocError>
    ensures { IfOk result (λ w. wave_data w ≡ wave_of
        (record { scopes = scopes_in header.now; fields = fields_of variable.now })) }
{
    let spelling = header.spell(alloc, variable)?;
    let suffix = suffix_by(alloc, variable.kind, spelling.range(), variable.size)?;
    Ok(Wave { spelling, suffix })
}

/// The variables of a header, in its order.
fn waves_of(alloc: Global, bytes: &[u8]) -> Result<Vec<Wave>, AllocError>
    ensures { IfOk result (λ ws.
        map wave_data ws.items ≡ map wave_of (declarations bytes.now)) }
{
    let mut header = Header::new(alloc, bytes);
    let mut waves = Vec::new(alloc);
    'variables: loop {
        let Some(variable) = header.next()? else {
            return Ok(waves);
        };
        waves.push(wave_of(alloc, &header, &variable)?)?;
    }
}

/// What stands behind a path in the name of the first variable that it is of.
pub(crate) fn suffix_in<'w>(waves: &'w [Wave], path: &str) -> &'w [u8]
    ensures { result.now ≡ suffix_in (map wave_data waves.now) path.now }
{
    for wave in waves {
        if wave.spelling.path() == path.as_bytes() {
            return wave.suffix.as_slice();
        }
    }
    b""
}

impl Waves {
    ghost use Rattle.std.specs.Prelude.{◌≡◌, IfOk, map};
    ghost use Rattle.vcd_declarations.specs.Declarations.{declarations};
    ghost use Rattle.report_gtkwave.specs.Scales.{scale_in};
    ghost use Rattle.report_gtkwave.specs.Waves.{wave_of};
    ghost use Rattle.report_gtkwave.specs.Views.{names_in, unit_in};

    /// Those of the header at the front of a dump's bytes.
    ///
    /// # Errors
    ///
    /// Want of memory alone.
    pub fn of(alloc: Global, bytes: &[u8]) -> Result<Waves, AllocError>
        ensures names { IfOk result (λ w. names_in w ≡ map wave_of (declarations bytes.now)) }
        ensures unit { IfOk result (λ w. unit_in w ≡ scale_in bytes.now) }
    {
        let waves = waves_of(alloc, bytes)?;
        let scale = scale_in(bytes);
        Ok(Waves { waves, scale })
    }
}
