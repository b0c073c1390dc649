// The rules of a normal form, and the numbers of their bodies in order of first occurrence.
ghost use Rattle.std.specs.Prelude.{◌≡◌, ◌≤◌, ◌<◌, ◌+◌, length, All, IfOk};
ghost use Rattle.ground_program.specs.Program.{IsNumber, IsRule};
ghost use Rattle.rule_normaliser.specs.Numbering.{Numbers};
ghost use Rattle.normal_program.specs.Normal.{AreNumbered};

use crate::merging::merged;
use crate::{Bodies, BodyOf, NormalRule, NormalRules};
use ground_program::Rule;
use indexmap::IndexSet;
use item_list::{List, NoMemory};
use std::alloc::Global;

/// Rules with their bodies, each body once.
#[derive(Drop)]
pub struct Numbered {
    pub bodies: IndexSet<BodyOf>,
    pub rules: NormalRules,
}

/// The rules with their bodies numbered.
pub fn number_rules(alloc: Global, rules: &[Rule]) -> Result<Numbered, NoMemory>
    requires rules { All IsRule rules.now }
    requires few { IsNumber (length rules.now) }
    ensures { IfOk result (λ all. AreNumbered all.bodies.keys all.rules rules.now) }
{
    let mut bodies = IndexSet::new(alloc);
    let mut made = List::open();
    for rule in rules {
        let parts = merged(alloc, rule.body.as_slice())?;
        let body = BodyOf {
            bound: rule.bound,
            parts,
        };
        let number = number_of(&mut bodies, body)?;
        let heads = rule.heads.copy(alloc)?;
        let normal = NormalRule {
            kind: rule.kind,
            heads,
            body: number as u32,
        };
        made.push(alloc, normal)?;
    }
    Ok(Numbered {
        bodies,
        rules: made,
    })
}

// The number of a body.
fn number_of(bodies: &mut IndexSet<BodyOf>, body: BodyOf) -> Result<usize, NoMemory>
    ensures { IfOk result (Numbers bodies.old.keys body bodies.new.keys) }
{
    let (number, _) = bodies.insert_full(body)?;
    Ok(number)
}

/// The bodies in order, as a list.
pub fn listed(alloc: Global, bodies: IndexSet<BodyOf>) -> Result<Bodies, NoMemory>
    ensures { IfOk result (λ all. all ≡ bodies.keys) }
{
    let mut all = List::open();
    for body in bodies {
        all.push(alloc, body)?;
    }
    Ok(all)
}
