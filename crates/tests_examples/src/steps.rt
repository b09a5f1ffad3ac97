//! Makes the steps of a file through the calls of `pcef_core`, each once more where it found no memory.
//!
//! A refusal leaves a world as it was. So with one allocation refused the program writes what it writes with memory,
//! or, where its files, its writer or its catalog found none, nothing and ends with 3 (`.ci/refused-memory`).

ghost use Rattle.std.specs.Prelude.{◌≡◌, [], ◌∷◌};
ghost use Rattle.pcef_catalog.specs.Shapes.{test_holds};
ghost use Rattle.pcef_catalog.specs.declared.shape.Test.TheVariants.{Dscp};

use crate::calls::{answer_list, answer_steps};
use arrayvec::ArrayVec;
use pcef_catalog::{Alternative, Catalog, Detect, Predefined, Shape, Test};
use pcef_packet::Header;
use pcef_rule::{Arp, Gate, Properties, Qci, Qos, RuleName};
use std::alloc::AllocError;
use std::fs;
use std::io::{self, BufWriter, Write};
use std::sync::Arc;

/// Answers the steps of a file one by one, and all at once.
fn answer_file(rt: &HostRuntime, catalog: Arc<Catalog>, path: &str) -> io::Result<()> {
    let alloc = rt.alloc();
    let profile = fs::read_to_string(rt, "profile.toml")?;
    let script = fs::read_to_string(rt, path)?;
    let mut writer = BufWriter::new(alloc, io::writer(rt))?;
    let for_list = Arc::try_clone(&catalog)?;
    answer_steps(alloc, catalog, &profile, &script, &mut writer)?;
    answer_list(alloc, for_list, &profile, &script, &mut writer)?;
    writer.flush()
}

/// The shape of the predefined rule: the DSCP is 46.
fn shape() -> Shape
    ensures { result ≡ (Dscp 46 ∷ []) ∷ [] }
{
    let mut expedited = Alternative::default();
    expedited.tests.push(Test::Dscp(46));
    let mut alternatives = ArrayVec::new();
    alternatives.push(expedited);
    Shape::new(alternatives)
}

/// The properties of the predefined rule, which wants a bearer of its own.
fn properties() -> Properties {
    Properties {
        name: RuleName::known("pre-ef"),
        precedence: 200,
        qos: Qos {
            qci: Qci(5),
            arp: Arp::known(4, false, false),
        },
        rates: None,
        gate: Gate::Enabled,
        key: None,
    }
}

/// Writes the answers to the steps of a file, on a catalog of one predefined rule.
pub fn write_steps(rt: &HostRuntime, path: &str) -> io::Result<()> {
    let alloc = rt.alloc();
    let detect: Detect = Box::new(
        alloc,
        |header: &Header| -> bool
            ensures { result ≡ test_holds header.now (Dscp 46) }
        { header.dscp == 46 },
    )?;
    let mut rules = Vec::new(alloc);
    rules.push(Predefined::new(properties(), shape(), detect))?;
    let Ok(catalog) = Catalog::new(alloc, rules) else {
        return Err(AllocError)?;
    };
    answer_file(rt, Arc::new(alloc, catalog)?, path)
}
