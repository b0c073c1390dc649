// Variables by activity: a binary heap in flat arrays, with the place of each variable in it. A
// variable that moves leaves a hole, and what it passes moves into the hole, so that each of those
// is written once. Activities are whole numbers. What one bump adds grows with each conflict, in
// place of all activities shrinking, and when it gets large all of them are scaled down at once.
ghost use Rattle.std.specs.Prelude.{◌≡◌, ◌<◌, ◌≤◌, ◌+◌, ◌^◌, All, IfOk, IfSome, length};
ghost use Rattle.clause_store.specs.Clause.{IsOver};
ghost use Rattle.clause_store.specs.Trail.{value_of};
ghost use Rattle.search_heuristics.specs.Heap.{AreVariables};

use clause_store::{Lit, Trail, Value, Var};
use item_list::NoMemory;
use std::alloc::Global;
use std::marker::Model;

/// The place of a variable that isn't in the heap.
const ABSENT: u32 = u32::MAX;

/// What the first bump adds, and what is left of the addend when all is scaled down.
const FIRST_ADDEND: u32 = 256;

/// A larger addend is scaled down. A variable that is bumped at each conflict gets to 20 addends.
const GREATEST_ADDEND: u32 = 1 << 27;

/// By how many bits all is scaled down.
const SCALE: u32 = 19;

/// One part in so many is added to the addend at a conflict, so an activity keeps 95 in 100.
const GROWTH: u32 = 19;

/// The first activity of a preferred variable, in addends: more than any other variable has, until
/// some fourteen conflicts later.
const HEAD_START: u32 = 20;

/// The variables up to a greatest one with their activities, and a heap of some of them.
#[derive(Debug, Drop)]
pub struct ActivityHeap {
    activities: Vec<u32>,
    places: Vec<u32>,
    heap: Vec<u32>,
    count: usize,
    addend: u32,
}

impl Model for ActivityHeap {
    ghost use Rattle.std.specs.Prelude.{length};
    ghost use Rattle.search_heuristics.specs.Heap.{Heaped, IsHeap};

    ghost Value = { Heaped };

    ghost view = { λ it. record { size = length it.activities.items; count = it.count } };

    ghost invariant = { λ it. IsHeap it.activities.items it.places.items it.heap.items it.count };
}

impl ActivityHeap {
    /// All activities are 0, and the heap is empty.
    pub fn open(alloc: Global, vars: u32) -> Result<ActivityHeap, NoMemory>
        requires { vars < 2 ^ 31 }
    {
        let count = vars as usize + 1;
        let activities = vec![in alloc; 0; count]?;
        let places = vec![in alloc; ABSENT; count]?;
        let heap = vec![in alloc; 0; count]?;
        Ok(ActivityHeap {
            activities,
            places,
            heap,
            count: 0,
            addend: FIRST_ADDEND,
        })
    }

    /// The same activities again, and the same heap.
    pub fn copy(&self, alloc: Global) -> Result<ActivityHeap, NoMemory>
        ensures { IfOk result (λ it. it ≡ self.now) }
    {
        let activities = Vec::from_slice(alloc, self.activities.as_slice())?;
        let places = Vec::from_slice(alloc, self.places.as_slice())?;
        let heap = Vec::from_slice(alloc, self.heap.as_slice())?;
        Ok(ActivityHeap {
            activities,
            places,
            heap,
            count: self.count,
            addend: self.addend,
        })
    }

    /// Adds to the activity of a variable.
    pub fn bump(&mut self, var: Var) {
        let at = var.0 as usize;
        if at < self.activities.len() {
            self.activities[at] = self.activities[at].saturating_add(self.addend);
            self.rise_from_place(var.0);
        }
    }

    /// Gives a variable a high activity, and puts it into the heap.
    pub fn lift(&mut self, var: Var) {
        let at = var.0 as usize;
        if at < self.activities.len() {
            let high = self.addend.saturating_mul(HEAD_START);
            self.activities[at] = self.activities[at].max(high);
            self.rise_from_place(var.0);
            self.put_in(var.0);
        }
    }

    /// Puts a variable into the heap, if it has an activity; answers whether it has.
    pub fn put_back(&mut self, var: Var) -> bool {
        let at = var.0 as usize;
        if at < self.activities.len() && 0 < self.activities[at] {
            self.put_in(var.0);
            return true;
        }
        false
    }

    /// Lets all activities lose a part of their weight.
    pub fn decay(&mut self) {
        self.addend = self.addend.saturating_add(self.addend / GROWTH);
        if GREATEST_ADDEND < self.addend {
            self.scale_down();
        }
    }

    /// The literal that makes the unset variable of the greatest activity in the heap true.
    /// Assigned variables before it are taken out.
    pub fn top_unset(&mut self, trail: &Trail) -> Option<Lit>
        ensures over { IfSome result (IsOver trail.now.vars) }
        ensures unset { IfSome result (λ lit. value_of trail.now.steps lit ≡ Value.Unset) }
    {
        'tops: while 0 < self.count {
            let lit = self.top().positive();
            if trail.has(lit) && trail.value(lit) == Value::Unset {
                return Some(lit);
            }
            self.drop_top();
        }
        None
    }

    /// The variable at the top.
    fn top(&self) -> Var
        requires { 0 < self.now.count }
        ensures { result.0 < 2 ^ 31 }
    {
        Var(self.heap[0])
    }

    /// Takes the variable at the top out.
    fn drop_top(&mut self)
        requires { 0 < self.old.count }
        ensures { self.new.count + 1 ≡ self.old.count }
    {
        self.count -= 1;
        let last = self.heap[self.count];
        self.places[self.heap[0] as usize] = ABSENT;
        if 0 < self.count {
            sink(
                self.heap.as_mut_slice(),
                self.places.as_mut_slice(),
                self.activities.as_slice(),
                self.count,
                last,
            );
        }
    }

    /// Puts a variable into the heap where it isn't in it.
    fn put_in(&mut self, var: u32)
        requires { var < self.old.size }
    {
        if self.places[var as usize] as usize >= self.count && self.count < self.heap.len() {
            self.count += 1;
            self.rise_from(self.count - 1, var);
        }
    }

    /// Lets a variable whose activity rose rise in the heap, if it is in it.
    fn rise_from_place(&mut self, var: u32)
        requires { var < self.old.size }
        ensures { self.new.size ≡ self.old.size }
    {
        let place = self.places[var as usize] as usize;
        if place < self.count {
            self.rise_from(place, var);
        }
    }

    /// Puts a variable where a hole at a place leaves it when what is less active sinks.
    fn rise_from(&mut self, place: usize, var: u32)
        requires place { place < self.old.count }
        requires var { var < self.old.size }
        ensures { self.new.size ≡ self.old.size }
    {
        rise(
            self.heap.as_mut_slice(),
            self.places.as_mut_slice(),
            self.activities.as_slice(),
            place,
            var,
        );
    }

    /// Scales all activities and the addend down. It comes once in some 250 conflicts.
    fn scale_down(&mut self) {
        for activity in self.activities.iter_mut() {
            *activity >>= SCALE;
        }
        self.addend >>= SCALE;
    }
}

/// Lets a variable rise from a hole to below one of no less activity.
fn rise(heap: &mut [u32], places: &mut [u32], activities: &[u32], start: usize, var: u32)
    requires variables { AreVariables activities.now places.old heap.old }
    requires start { start < length heap.old }
    requires var { var < length activities.now }
    ensures { AreVariables activities.now places.new heap.new }
{
    let mut hole = start;
    'rising: while 0 < hole {
        let above = (hole - 1) / 2;
        let other = heap[above];
        if activities[var as usize] <= activities[other as usize] {
            break;
        }
        heap[hole] = other;
        places[other as usize] = hole as u32;
        hole = above;
    }
    heap[hole] = var;
    places[var as usize] = hole as u32;
}

/// Lets a variable sink from the hole at the top of the first `count` places to above those of no
/// more activity.
fn sink(heap: &mut [u32], places: &mut [u32], activities: &[u32], count: usize, var: u32)
    requires variables { AreVariables activities.now places.old heap.old }
    requires some { 0 < count }
    requires within { count ≤ length heap.old }
    requires var { var < length activities.now }
    ensures { AreVariables activities.now places.new heap.new }
{
    let mut hole = 0;
    'sinking: while 2 * hole + 1 < count {
        let below = greater_below(heap, activities, count, 2 * hole + 1);
        let other = heap[below];
        if activities[other as usize] <= activities[var as usize] {
            break;
        }
        heap[hole] = other;
        places[other as usize] = hole as u32;
        hole = below;
    }
    heap[hole] = var;
    places[var as usize] = hole as u32;
}

/// The place of the greater one of two neighbours, or of the one that there is.
fn greater_below(heap: &[u32], activities: &[u32], count: usize, left: usize) -> usize
    requires known { All (λ var. var < length activities.now) heap.now }
    requires within { count ≤ length heap.now }
    requires left { left < count }
    ensures above { left ≤ result }
    ensures below { result < count }
{
    let right = left + 1;
    if right < count && activities[heap[left] as usize] < activities[heap[right] as usize] {
        right
    } else {
        left
    }
}
