// Rules.
ghost use Rattle.std.specs.Prelude.{◌≡◌};
ghost use Rattle.lparse_reader.specs.Fields.{ReadsAs, behind, counted_at, atom_at, part_at};
ghost use Rattle.lparse_reader.specs.Fields.{weighed_at};
ghost use Rattle.lparse_reader.specs.Reading.{kind_or_end_at, counts_at, body_at, heads_at};
ghost use Rattle.lparse_reader.specs.Reading.{basic_at, constraint_at, weight_at, many_heads_at};
ghost use Rattle.lparse_reader.specs.Reading.{rule_at, rule_or_end_at, all_at};

use crate::fault::{Fault, Stop, TextFault};
use crate::token_text::{fault_here, next_token, read_atom, read_number};
use ground_program::{AtomLit, Body, Heads, Kind, Rule, Rules, Weighted};
use item_list::List;
use std::alloc::Global;

/// How many literals a body has.
#[derive(Clone, Copy, Debug, PartialEq, Eq)]
pub struct Counts {
    /// All of them.
    pub literals: u32,
    /// The negative ones.
    pub negatives: u32,
    /// The others.
    pub positives: u32,
}

/// All rules.
pub fn read_rules(alloc: Global, bytes: &[u8]) -> Result<(Rules, &[u8]), Stop>
    ensures { ReadsAs (λ x. (x.0, x.1.now)) result (all_at rule_or_end_at bytes.now) }
{
    let mut rules = List::open();
    let mut rest = bytes;
    // Each rule takes a byte at least, and so does the end.
    for _ in 0..bytes.len() {
        let (rule, after) = read_rule_or_end(alloc, rest)?;
        rest = after;
        match rule {
            None => return Ok((rules, rest)),
            Some(rule) => rules.push(alloc, rule)?,
        }
    }
    Err(Stop::Fault(Fault::Ended))
}

/// A rule, or nothing at a 0.
#[tactic(auto, unfolding(crate::specs::Reading::rule_or_end_at))]
fn read_rule_or_end(alloc: Global, bytes: &[u8]) -> Result<(Option<Rule>, &[u8]), Stop>
    ensures { ReadsAs (λ x. (x.0, x.1.now)) result (rule_or_end_at bytes.now) }
{
    let (kind, rest) = read_kind_or_end(bytes)?;
    match kind {
        None => Ok((None, rest)),
        Some(kind) => {
            let (rule, rest) = read_rule(alloc, kind, rest)?;
            Ok((Some(rule), rest))
        }
    }
}

/// A kind, or nothing at a 0.
#[tactic(auto, unfolding(crate::specs::Reading::kind_or_end_at))]
fn read_kind_or_end(bytes: &[u8]) -> Result<(Option<Kind>, &[u8]), Stop>
    ensures { ReadsAs (λ x. (x.0, x.1.now)) result (kind_or_end_at bytes.now) }
{
    let (number, rest) = read_number(bytes)?;
    match number {
        0 => Ok((None, rest)),
        1 => Ok((Some(Kind::Basic), rest)),
        2 => Ok((Some(Kind::Constraint), rest)),
        3 => Ok((Some(Kind::Choice), rest)),
        5 => Ok((Some(Kind::Weight), rest)),
        8 => Ok((Some(Kind::Disjunctive), rest)),
        6 => Err(fault_here(TextFault::MinimizeRule, next_token(bytes), 6)),
        _ => Err(fault_here(TextFault::UnknownKind, next_token(bytes), number as u64)),
    }
}

/// The rule of a kind.
fn read_rule(alloc: Global, kind: Kind, bytes: &[u8]) -> Result<(Rule, &[u8]), Stop>
    ensures { ReadsAs (λ x. (x.0, x.1.now)) result (rule_at kind bytes.now) }
{
    match kind {
        Kind::Basic => read_basic_rule(alloc, bytes),
        Kind::Constraint => read_constraint_rule(alloc, bytes),
        Kind::Choice => read_many_heads_rule(alloc, kind, bytes),
        Kind::Weight => read_weight_rule(alloc, bytes),
        Kind::Disjunctive => read_many_heads_rule(alloc, kind, bytes),
    }
}

/// The fields of a basic rule.
#[tactic(auto, unfolding(crate::specs::Reading::basic_at))]
fn read_basic_rule(alloc: Global, bytes: &[u8]) -> Result<(Rule, &[u8]), Stop>
    ensures { ReadsAs (λ x. (x.0, x.1.now)) result (basic_at bytes.now) }
{
    let (head, rest) = read_atom(bytes)?;
    let (counts, rest) = read_counts(rest)?;
    let (body, rest) = read_body(alloc, counts, rest)?;
    let rule = Rule {
        kind: Kind::Basic,
        heads: Heads::one(head),
        bound: counts.literals,
        body,
    };
    Ok((rule, rest))
}

/// The fields of a constraint rule.
#[tactic(auto, unfolding(crate::specs::Reading::constraint_at))]
fn read_constraint_rule(alloc: Global, bytes: &[u8]) -> Result<(Rule, &[u8]), Stop>
    ensures { ReadsAs (λ x. (x.0, x.1.now)) result (constraint_at bytes.now) }
{
    let (head, rest) = read_atom(bytes)?;
    let (counts, after_counts) = read_counts(rest)?;
    let (bound, after_bound) = read_number(after_counts)?;
    let (body, rest) = read_body(alloc, counts, after_bound)?;
    let rule = Rule {
        kind: Kind::Constraint,
        heads: Heads::one(head),
        bound,
        body,
    };
    Ok((rule, rest))
}

/// The fields of a weight rule.
#[tactic(auto, unfolding(crate::specs::Reading::weight_at))]
fn read_weight_rule(alloc: Global, bytes: &[u8]) -> Result<(Rule, &[u8]), Stop>
    ensures { ReadsAs (λ x. (x.0, x.1.now)) result (weight_at bytes.now) }
{
    let (head, rest) = read_atom(bytes)?;
    let (bound, rest) = read_number(rest)?;
    let (counts, rest) = read_counts(rest)?;
    let (body, rest) = read_body(alloc, counts, rest)?;
    let (body, rest) = read_weights(alloc, body.as_slice(), rest)?;
    let rule = Rule {
        kind: Kind::Weight,
        heads: Heads::one(head),
        bound,
        body,
    };
    Ok((rule, rest))
}

/// The fields of a choice or a disjunctive rule.
#[tactic(auto, unfolding(crate::specs::Reading::many_heads_at))]
fn read_many_heads_rule(alloc: Global, kind: Kind, bytes: &[u8]) -> Result<(Rule, &[u8]), Stop>
    ensures { ReadsAs (λ x. (x.0, x.1.now)) result (many_heads_at kind bytes.now) }
{
    let (heads, rest) = read_heads(alloc, bytes)?;
    let (counts, rest) = read_counts(rest)?;
    let (body, rest) = read_body(alloc, counts, rest)?;
    let rule = Rule {
        kind,
        heads,
        bound: counts.literals,
        body,
    };
    Ok((rule, rest))
}

/// The number of literals, and how many of them are negative.
#[tactic(auto, unfolding(crate::specs::Reading::counts_at))]
fn read_counts(bytes: &[u8]) -> Result<(Counts, &[u8]), Stop>
    ensures { ReadsAs (λ x. (x.0, x.1.now)) result (counts_at bytes.now) }
{
    let (literals, middle) = read_number(bytes)?;
    let (negatives, rest) = read_number(middle)?;
    if literals < negatives {
        return Err(fault_here(
            TextFault::NegativeCount,
            next_token(middle),
            negatives as u64,
        ));
    }
    let counts = Counts {
        literals,
        negatives,
        positives: literals - negatives,
    };
    Ok((counts, rest))
}

/// The number of heads and then the heads.
#[tactic(auto, unfolding(crate::specs::Reading::heads_at))]
fn read_heads(alloc: Global, bytes: &[u8]) -> Result<(Heads, &[u8]), Stop>
    ensures { ReadsAs (λ x. (x.0, x.1.now)) result (heads_at bytes.now) }
{
    let (count, rest) = read_number(bytes)?;
    read_atoms(alloc, count, rest)
}

/// So many atoms.
fn read_atoms(alloc: Global, count: u32, bytes: &[u8]) -> Result<(Heads, &[u8]), Stop>
    ensures { ReadsAs (λ x. (x.0, x.1.now)) result (counted_at atom_at count bytes.now) }
{
    let mut atoms = Heads::open();
    let mut rest = bytes;
    for _ in 0..count {
        let (atom, after) = read_atom(rest)?;
        atoms.push(alloc, atom)?;
        rest = after;
    }
    Ok((atoms, rest))
}

/// The negative literals and then the positive ones.
#[tactic(auto, unfolding(crate::specs::Reading::body_at))]
fn read_body(alloc: Global, counts: Counts, bytes: &[u8]) -> Result<(Body, &[u8]), Stop>
    ensures { ReadsAs (λ x. (x.0, x.1.now)) result (body_at counts bytes.now) }
{
    let (body, rest) = read_parts(alloc, Body::open(), true, counts.negatives, bytes)?;
    read_parts(alloc, body, false, counts.positives, rest)
}

/// So many literals of the weight 1 behind those that are there.
fn read_parts(
    alloc: Global,
    before: Body,
    negated: bool,
    count: u32,
    bytes: &[u8],
) -> Result<(Body, &[u8]), Stop>
    ensures { ReadsAs (λ x. (x.0, x.1.now)) result
        (behind before (counted_at (part_at negated) count bytes.now)) }
{
    let mut body = before;
    let mut rest = bytes;
    for _ in 0..count {
        let (part, after) = read_part(negated, rest)?;
        body.push(alloc, part)?;
        rest = after;
    }
    Ok((body, rest))
}

/// A literal of the weight 1.
#[tactic(auto, unfolding(crate::specs::Fields::part_at))]
fn read_part(negated: bool, bytes: &[u8]) -> Result<(Weighted, &[u8]), Stop>
    ensures { ReadsAs (λ x. (x.0, x.1.now)) result (part_at negated bytes.now) }
{
    let (atom, rest) = read_atom(bytes)?;
    let lit = AtomLit { atom, negated };
    Ok((Weighted { lit, weight: 1 }, rest))
}

/// The literals with weights from here in place of their own.
fn read_weights<'a>(
    alloc: Global,
    parts: &[Weighted],
    bytes: &'a [u8],
) -> Result<(Body, &'a [u8]), Stop>
    ensures { ReadsAs (λ x. (x.0, x.1.now)) result (weighed_at parts.now bytes.now) }
{
    let mut body = Body::open();
    let mut rest = bytes;
    for part in parts {
        let (weight, after) = read_number(rest)?;
        body.push(
            alloc,
            Weighted {
                lit: part.lit,
                weight,
            },
        )?;
        rest = after;
    }
    Ok((body, rest))
}
