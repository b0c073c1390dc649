// Printing a program: one function for each part of its text.
ghost use Rattle.std.specs.Prelude.{◌≡◌, ◌∷◌, [], ℕ, List, length};
ghost use Rattle.byte_edges.specs.Edges.{Writes};
ghost use Rattle.ground_program.specs.Program.{IsProgram};
ghost use Rattle.ground_program.specs.declared.program.Kind.TheVariants.{Basic, Constraint, Choice};
ghost use Rattle.ground_program.specs.declared.program.Kind.TheVariants.{Weight, Disjunctive};
ghost use Rattle.lparse_reader.specs.Pieces.{kind_number, numbers_of_kind, body_atoms};
ghost use Rattle.lparse_reader.specs.Pieces.{body_weights, negatives};
ghost use Rattle.lparse_reader.specs.Text.{next_field, next_fields, rule_line, entry_line};
ghost use Rattle.lparse_reader.specs.Text.{number_line, ended_lines, marked_atoms, text};

use byte_edges::{Page, Sink, WriteFault, write_bytes};
use ground_program::{Kind, Named, Program, Rule, Weighted};
use number_text::{write_number, write_number_after, write_number_ended};

/// Writes the canonical text of a program. It takes no memory. A line of up to 4096 bytes goes out
/// by one write, and of a longer one each field.
pub fn print_program<K: Sink>(program: &Program, sink: &mut K) -> Result<(), WriteFault>
    requires { IsProgram program.now }
    ensures { Writes K.written K.faults sink.old sink.new (text program.now) result }
{
    print_lines(program.rules.as_slice(), sink)?;
    print_lines(program.names.as_slice(), sink)?;
    print_atoms(b"B+\n", program.must.as_slice(), sink)?;
    print_atoms(b"B-\n", program.must_not.as_slice(), sink)?;
    program.models.print(sink)
}

// A mark and the atoms behind it.
fn print_atoms<K: Sink>(mark: &[u8], atoms: &[u32], sink: &mut K) -> Result<(), WriteFault>
    ensures { Writes K.written K.faults sink.old sink.new (marked_atoms mark.now atoms.now) result }
{
    write_bytes(mark, sink)?;
    print_lines(atoms, sink)
}

// What has a line of its own.
trait Line {
    ghost line: { Self → List ℕ };

    fn print<K: Sink>(&self, sink: &mut K) -> Result<(), WriteFault>
        ensures { Writes K.written K.faults sink.old sink.new (line self.now) result };
}

// The lines of the items, and the 0 that ends them.
fn print_lines<T: Line, K: Sink>(items: &[T], sink: &mut K) -> Result<(), WriteFault>
    ensures { Writes K.written K.faults sink.old sink.new (ended_lines T.line items.now) result }
{
    for item in items {
        print_line(item, sink)?;
    }
    0u32.print(sink)
}

// One line: by one write, where it fits a page.
fn print_line<T: Line, K: Sink>(item: &T, sink: &mut K) -> Result<(), WriteFault>
    ensures { Writes K.written K.faults sink.old sink.new (T.line item.now) result }
{
    let mut page = Page::open();
    match item.print(&mut page) {
        Ok(()) => write_bytes(page.written(), sink),
        Err(_) => item.print(sink),
    }
}

impl Line for u32 {
    ghost line = { number_line };

    fn print<K: Sink>(&self, sink: &mut K) -> Result<(), WriteFault> {
        write_number_ended(*self as u64, b'\n', sink)
    }
}

impl Line for Named {
    ghost line = { entry_line };

    fn print<K: Sink>(&self, sink: &mut K) -> Result<(), WriteFault> {
        write_number_ended(self.atom as u64, b' ', sink)?;
        write_bytes(self.name.as_slice(), sink)?;
        write_bytes(b"\n", sink)
    }
}

impl Line for Rule {
    ghost line = { rule_line };

    fn print<K: Sink>(&self, sink: &mut K) -> Result<(), WriteFault> {
        write_number(number_of_kind(self.kind), sink)?;
        print_fields(self, sink)?;
        write_bytes(b"\n", sink)
    }
}

fn number_of_kind(kind: Kind) -> u64
    ensures { result ≡ kind_number kind }
{
    match kind {
        Kind::Basic => 1,
        Kind::Constraint => 2,
        Kind::Choice => 3,
        Kind::Weight => 5,
        Kind::Disjunctive => 8,
    }
}

// The fields of a rule after its kind.
fn print_fields<K: Sink>(rule: &Rule, sink: &mut K) -> Result<(), WriteFault>
    ensures { Writes K.written K.faults sink.old sink.new
        (next_fields (numbers_of_kind rule.now.kind rule.now.heads rule.now.bound rule.now.body))
        result }
{
    match rule.kind {
        Kind::Basic => print_basic(rule, sink),
        Kind::Constraint => print_constraint(rule, sink),
        Kind::Choice | Kind::Disjunctive => print_many_heads(rule, sink),
        Kind::Weight => print_weight(rule, sink),
    }
}

fn print_basic<K: Sink>(rule: &Rule, sink: &mut K) -> Result<(), WriteFault>
    ensures { Writes K.written K.faults sink.old sink.new
        (next_fields (numbers_of_kind Basic rule.now.heads rule.now.bound rule.now.body)) result }
{
    print_numbers(rule.heads.as_slice(), sink)?;
    print_counts(rule.body.as_slice(), sink)?;
    print_literals(rule.body.as_slice(), sink)
}

fn print_constraint<K: Sink>(rule: &Rule, sink: &mut K) -> Result<(), WriteFault>
    ensures { Writes K.written K.faults sink.old sink.new
        (next_fields (numbers_of_kind Constraint rule.now.heads rule.now.bound rule.now.body))
        result }
{
    print_numbers(rule.heads.as_slice(), sink)?;
    print_counts(rule.body.as_slice(), sink)?;
    print_number(rule.bound as u64, sink)?;
    print_literals(rule.body.as_slice(), sink)
}

fn print_many_heads<K: Sink>(rule: &Rule, sink: &mut K) -> Result<(), WriteFault>
    ensures { Writes K.written K.faults sink.old sink.new
        (next_fields (numbers_of_kind Choice rule.now.heads rule.now.bound rule.now.body)) result }
{
    print_number(rule.heads.len() as u64, sink)?;
    print_numbers(rule.heads.as_slice(), sink)?;
    print_counts(rule.body.as_slice(), sink)?;
    print_literals(rule.body.as_slice(), sink)
}

fn print_weight<K: Sink>(rule: &Rule, sink: &mut K) -> Result<(), WriteFault>
    ensures { Writes K.written K.faults sink.old sink.new
        (next_fields (numbers_of_kind Weight rule.now.heads rule.now.bound rule.now.body)) result }
{
    print_numbers(rule.heads.as_slice(), sink)?;
    print_number(rule.bound as u64, sink)?;
    print_counts(rule.body.as_slice(), sink)?;
    print_literals(rule.body.as_slice(), sink)?;
    print_weights(rule.body.as_slice(), sink)
}

// The number of literals, and how many of them are negative.
fn print_counts<K: Sink>(body: &[Weighted], sink: &mut K) -> Result<(), WriteFault>
    ensures { Writes K.written K.faults sink.old sink.new
        (next_fields (length body.now ∷ negatives body.now ∷ [])) result }
{
    print_number(body.len() as u64, sink)?;
    print_number(negatives_of(body) as u64, sink)
}

fn negatives_of(body: &[Weighted]) -> usize
    ensures { result ≡ negatives body.now }
{
    body.iter().filter(|part| part.lit.negated).count()
}

fn print_literals<K: Sink>(body: &[Weighted], sink: &mut K) -> Result<(), WriteFault>
    ensures { Writes K.written K.faults sink.old sink.new (next_fields (body_atoms body.now))
        result }
{
    for part in body {
        print_number(part.lit.atom as u64, sink)?;
    }
    Ok(())
}

fn print_weights<K: Sink>(body: &[Weighted], sink: &mut K) -> Result<(), WriteFault>
    ensures { Writes K.written K.faults sink.old sink.new (next_fields (body_weights body.now))
        result }
{
    for part in body {
        print_number(part.weight as u64, sink)?;
    }
    Ok(())
}

fn print_numbers<K: Sink>(numbers: &[u32], sink: &mut K) -> Result<(), WriteFault>
    ensures { Writes K.written K.faults sink.old sink.new (next_fields numbers.now) result }
{
    for number in numbers {
        print_number(*number as u64, sink)?;
    }
    Ok(())
}

// One blank and the number.
fn print_number<K: Sink>(number: u64, sink: &mut K) -> Result<(), WriteFault>
    ensures { Writes K.written K.faults sink.old sink.new (next_field number) result }
{
    write_number_after(b' ', number, sink)
}
