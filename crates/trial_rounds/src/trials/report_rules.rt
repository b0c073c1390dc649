// Which reports are legal, by the definition: a plain check of each line by the lines before it.
use crate::trials::truth::Truth;
use ground_program::{Mode, Program, Set, has_atom};
use report::Line;

/// A query whose report is judged.
#[derive(Drop)]
pub struct Query<'a> {
    pub program: &'a Program,
    pub truth: &'a Truth,
    pub mode: Mode,
    pub budget: u32,
}

/// How a report ends.
#[derive(Drop, Clone, Copy, PartialEq, Eq)]
pub enum Ending {
    Complete,
    /// PARTIAL behind OPEN lines.
    Open,
    /// PARTIAL behind an UNKNOWN line.
    Unknown,
    Incoherent,
}

impl Query<'_> {
    /// How a report with this status ends that rests on so many spent tests. None is a report that
    /// isn't legal.
    pub fn judge(&self, lines: &[Line], status: u8, spent: usize) -> Option<Ending> {
        let (body, rest) = parts(lines);
        let [tests @ .., verdict] = rest else {
            return None;
        };
        if !self.may_begin(body) || tests.len() != spent {
            return None;
        }
        self.end(body, tests, verdict, status)
    }

    /// Each line may stand behind those before it.
    fn may_begin(&self, body: &[Line]) -> bool {
        for at in 0..body.len() {
            if !self.may_follow(&body[..at], &body[at]) {
                return false;
            }
        }
        true
    }

    fn may_follow(&self, before: &[Line], line: &Line) -> bool {
        match line {
            Line::Answer { number, set } => self.is_answer(before, *number, set),
            Line::SettledIn { cand, by } => self.is_in(before, *cand, *by),
            Line::SettledOut { cand, by } => self.is_out(before, *cand, *by),
            Line::Sizes { lower, upper } => self.are_sizes(before, *lower, *upper),
            _ => false,
        }
    }

    /// ANSWER: numbers count up, the set is an answer set, and it is the first or shows an open
    /// candidate.
    fn is_answer(&self, before: &[Line], number: u32, set: &Set) -> bool {
        let given = answers(before);
        if number as usize != given.saturating_add(1) {
            return false;
        }
        if !self.truth.has(set.as_slice()) {
            return false;
        }
        given == 0 || self.shows_open(before, set)
    }

    /// IN: the candidate is open and a consequence. In brave mode the line names an answer set with
    /// its atom, and else 0.
    fn is_in(&self, before: &[Line], cand: u32, by: u32) -> bool {
        if is_settled(before, cand) {
            return false;
        }
        if !self.is_consequence(cand) {
            return false;
        }
        match self.mode {
            Mode::Cautious => by == 0,
            Mode::Brave => self.is_shown_by(before, cand, by),
        }
    }

    /// OUT: the candidate is open and no consequence. In cautious mode the line names an answer set
    /// without its atom, and else 0.
    fn is_out(&self, before: &[Line], cand: u32, by: u32) -> bool {
        if is_settled(before, cand) {
            return false;
        }
        if !self.is_candidate(cand) || self.is_consequence(cand) {
            return false;
        }
        match self.mode {
            Mode::Cautious => self.is_shown_by(before, cand, by),
            Mode::Brave => by == 0,
        }
    }

    /// PAIR: the sizes that the lines make, others than those of the PAIR line before, and each
    /// candidate that an answer set shows is settled.
    fn are_sizes(&self, before: &[Line], lower: u32, upper: u32) -> bool {
        if lower as usize != ins(before) {
            return false;
        }
        if (upper as usize).saturating_add(outs(before)) != self.program.names.len() {
            return false;
        }
        if last_sizes(before) == Some((lower, upper)) {
            return false;
        }
        !before.iter().any(|line| gives_open(self, before, line))
    }

    /// The verdict, behind the lines of spent tests.
    fn end(&self, body: &[Line], tests: &[Line], verdict: &Line, status: u8) -> Option<Ending> {
        match (verdict, status) {
            (Line::Complete, 0) => self.end_complete(body, tests),
            (Line::Partial, 1) => self.end_partial(body, tests),
            (Line::Incoherent, 2) => self.end_incoherent(tests),
            _ => None,
        }
    }

    /// COMPLETE: an answer set was given, every candidate is settled, and the sizes are told.
    fn end_complete(&self, body: &[Line], tests: &[Line]) -> Option<Ending> {
        if answers(body) == 0 {
            return None;
        }
        if self.open(body) != 0 {
            return None;
        }
        if !tests.is_empty() || !is_sized(body) {
            return None;
        }
        Some(Ending::Complete)
    }

    /// PARTIAL: the sizes are told, and the lines of tests are one UNKNOWN line where no answer set
    /// was given, or else an OPEN line for each open candidate.
    fn end_partial(&self, body: &[Line], tests: &[Line]) -> Option<Ending> {
        if !is_sized(body) {
            return None;
        }
        if answers(body) == 0 {
            return self.end_unknown(tests);
        }
        if !self.names_open(body, tests) {
            return None;
        }
        Some(Ending::Open)
    }

    fn end_unknown(&self, tests: &[Line]) -> Option<Ending> {
        match tests {
            [Line::Unknown { units }] if *units == self.budget => Some(Ending::Unknown),
            _ => None,
        }
    }

    /// INCOHERENT: there is no answer set.
    fn end_incoherent(&self, tests: &[Line]) -> Option<Ending> {
        if !tests.is_empty() || !self.truth.is_incoherent() {
            return None;
        }
        Some(Ending::Incoherent)
    }

    /// The lines name just the open candidates, ascending, with the budget. There is one at least.
    fn names_open(&self, body: &[Line], tests: &[Line]) -> bool {
        let mut last = 0;
        for line in tests {
            let Line::Unsettled { cand, units } = line else {
                return false;
            };
            if *cand <= last || !self.is_open(body, *cand) || *units != self.budget {
                return false;
            }
            last = *cand;
        }
        last != 0 && tests.len() == self.open(body)
    }

    /// How many candidates are open.
    fn open(&self, before: &[Line]) -> usize {
        let mut open = 0usize;
        for at in 0..self.candidates() {
            if self.is_open(before, at.saturating_add(1)) {
                open = open.saturating_add(1);
            }
        }
        open
    }

    fn candidates(&self) -> u32 {
        u32::try_from(self.program.names.len()).unwrap_or(0)
    }

    fn is_open(&self, before: &[Line], cand: u32) -> bool {
        self.is_candidate(cand) && !is_settled(before, cand)
    }

    fn is_candidate(&self, cand: u32) -> bool {
        self.atom_of(cand).is_some()
    }

    fn is_consequence(&self, cand: u32) -> bool {
        match self.atom_of(cand) {
            Some(atom) => self.truth.is_consequence(self.mode, atom),
            None => false,
        }
    }

    /// The set shows the candidate: out in cautious mode, and in in brave mode.
    fn shows(&self, set: &Set, cand: u32) -> bool {
        match self.atom_of(cand) {
            Some(atom) => has_atom(set.as_slice(), atom) == (self.mode == Mode::Brave),
            None => false,
        }
    }

    fn atom_of(&self, cand: u32) -> Option<u32> {
        let at = cand.checked_sub(1)?;
        match self.program.names.as_slice().get(at as usize) {
            Some(named) => Some(named.atom),
            None => None,
        }
    }

    fn shows_open(&self, before: &[Line], set: &Set) -> bool {
        for at in 0..self.candidates() {
            let cand = at.saturating_add(1);
            if self.is_open(before, cand) && self.shows(set, cand) {
                return true;
            }
        }
        false
    }

    /// The answer set with this number was given and shows the candidate.
    fn is_shown_by(&self, before: &[Line], cand: u32, by: u32) -> bool {
        before.iter().any(|line| match line {
            Line::Answer { number, set } => *number == by && self.shows(set, cand),
            _ => false,
        })
    }
}

/// A line gives an answer set that shows an open candidate.
fn gives_open(query: &Query, before: &[Line], line: &Line) -> bool {
    match line {
        Line::Answer { set, .. } => query.shows_open(before, set),
        _ => false,
    }
}

/// The lines before the first of a spent test or a verdict, and those from there on.
fn parts(lines: &[Line]) -> (&[Line], &[Line]) {
    for at in 0..lines.len() {
        if is_of_end(&lines[at]) {
            return lines.split_at(at);
        }
    }
    lines.split_at(lines.len())
}

fn is_of_end(line: &Line) -> bool {
    !matches!(
        line,
        Line::Answer { .. }
            | Line::SettledIn { .. }
            | Line::SettledOut { .. }
            | Line::Sizes { .. }
            | Line::Watch { .. }
    )
}

fn answers(lines: &[Line]) -> usize {
    lines
        .iter()
        .filter(|line| matches!(line, Line::Answer { .. }))
        .count()
}

fn ins(lines: &[Line]) -> usize {
    lines
        .iter()
        .filter(|line| matches!(line, Line::SettledIn { .. }))
        .count()
}

fn outs(lines: &[Line]) -> usize {
    lines
        .iter()
        .filter(|line| matches!(line, Line::SettledOut { .. }))
        .count()
}

/// An IN or an OUT line names the candidate.
fn is_settled(before: &[Line], cand: u32) -> bool {
    before.iter().any(|line| match line {
        Line::SettledIn { cand: named, .. } => *named == cand,
        Line::SettledOut { cand: named, .. } => *named == cand,
        _ => false,
    })
}

/// The sizes of the last PAIR line.
fn last_sizes(before: &[Line]) -> Option<(u32, u32)> {
    let mut last = None;
    for line in before {
        if let Line::Sizes { lower, upper } = line {
            last = Some((*lower, *upper));
        }
    }
    last
}

/// A PAIR line stands there, and no candidate is settled after it.
fn is_sized(body: &[Line]) -> bool {
    let mut sized = false;
    for line in body {
        match line {
            Line::Sizes { .. } => sized = true,
            Line::SettledIn { .. } => sized = false,
            Line::SettledOut { .. } => sized = false,
            _ => {}
        }
    }
    sized
}
