//! Making a list of texts under a name, as one run.

ghost use Rattle.std.specs.Prelude.{◌≡◌, IfErr, IfOk, Ok, false, option_map, unwrap_or};
ghost use Rattle.std.specs.Option.{ForSome};
ghost use Rattle.list_making.specs.Making.{IsPut, IsUntouched};
ghost use Rattle.text_run.specs.Base.{is_read};
ghost use Rattle.text_run.specs.Over.{HasNames, MakesOver, WhyUnmade, fault_of, over_asked};

use crate::inputs::Inputs;
use crate::listed::{Facts, Listed, Merged, read_texts};
use crate::make_fault::MakeFault;
use byte_streams::Source;
use krl_core::Revocations;
use list_making::{Made, Maker, Target, make_at};
use span_sets::Held;
use std::alloc::Global;

/// The list that the texts make over what a reader gives, or without an old list.
pub fn list_over<'a, R: Source + Drop>(
    alloc: Global,
    inputs: &'a Inputs<'a>,
    old: Option<R>,
) -> Result<Made<Facts>, MakeFault<'a>>
    requires { ForSome old (λ reader. R.has_failed reader ≡ false) }
    ensures made { IfOk result (λ made. MakesOver inputs.now (option_map R.left old)
        made.bytes.items made.facts.version made.facts.revocations made.facts.lost) }
    ensures over { IfOk result (λ made. over_asked inputs.now ≡ Ok made.facts.over) }
    ensures names { IfOk result (λ made. HasNames inputs.now made.facts.names) }
{
    let list = match read_texts(alloc, inputs) {
        Ok(list) => list,
        Err(fault) => return Err(fault),
    };
    match list.make(alloc, old) {
        Ok(made) => Ok(with_texts(made, list)),
        Err(fault) => Err(fault),
    }
}

// The list with what it has of the old list, or of the texts alone, and the facts about the texts.
fn with_texts(made: Made<Merged>, list: Listed<'_>) -> Made<Facts>
    ensures bytes { result.bytes ≡ made.bytes }
    ensures version { result.facts.version ≡ made.facts.version }
    ensures revocations { result.facts.revocations
        ≡ unwrap_or made.facts.revocations list.entry.revocations }
    ensures lost { result.facts.lost ≡ made.facts.lost }
    ensures over { result.facts.over ≡ list.entry.over }
    ensures names { result.facts.names ≡ list.entry.names }
{
    let Made { bytes, facts } = made;
    let Listed {
        revocations,
        over,
        names,
        ..
    } = list;
    let facts = Facts {
        version: facts.version,
        revocations: facts.revocations.unwrap_or(revocations),
        lost: facts.lost,
        over,
        names,
    };
    Made { bytes, facts }
}

/// Makes a list that names exactly what the lines of the texts name, and what the list under its
/// name names if that is wanted, and puts it there. The texts are read first, and once, however
/// often the list is made because another program changed what is under the name.
///
/// The first fault stops the run: those of the texts and lines in order; that a text has no entry,
/// and that none has one, unless that is allowed; then those of what is under the name, of the
/// version and of the list.
pub fn text_run<'a, P: Target>(
    alloc: Global,
    inputs: &'a Inputs<'a>,
    place: &mut P,
) -> Result<Made<Facts>, MakeFault<'a>>
    ensures made { IfOk result (λ made. IsPut P.holds P.replaced (is_read inputs.now.over)
        (λ old. MakesOver inputs.now old made.bytes.items made.facts.version
        made.facts.revocations made.facts.lost) made.bytes.items place.new) }
    ensures over { IfOk result (λ made. over_asked inputs.now ≡ Ok made.facts.over) }
    ensures names { IfOk result (λ made. HasNames inputs.now made.facts.names) }
    ensures unmade { IfErr result (WhyUnmade P.base inputs.now place.new) }
    ensures kept { IfErr result (IsUntouched P.holds P.overtaken (fault_of inputs.now) place.old
        place.new) }
{
    let list = match read_texts(alloc, inputs) {
        Ok(list) => list,
        Err(fault) => return Err(fault),
    };
    match make_at(alloc, &list, place) {
        Ok(made) => Ok(with_texts(made, list)),
        Err(fault) => Err(fault),
    }
}
