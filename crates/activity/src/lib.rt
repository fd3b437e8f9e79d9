// Rule 7: activities of variables, and the pick of rule 6. Each operation on a float is rounded once.
#![tactic(auto)]

ghost use Rattle.std.specs.Prelude.{◌≡◌, ◌<◌, List, map, length, get_or, position, ◌==◌, Float};
ghost use Rattle.std.specs.Prelude.{None as none, Some as some};
ghost use Rattle.model.specs.Lit.{l_undef};
ghost use Rattle.model.specs.State.{initial_activity};
ghost use Rattle.model.specs.Activity.{var_bump_activity, var_decay_activity};
ghost use Rattle.model.specs.Decide.{pick};
ghost use Rattle.activity.specs.Activities.{activity, scaled};
ghost use Rattle.activity.specs.Pick.{better};
ghost use Rattle.activity.specs.Leading.{Sizes, Leads, var_of};

use clause::{UNDEF, Var};
use std::marker::Model;

// By variable its activity, and what a bump adds. A variable's value stands in another slice: the trail owns the values, and there is no heap.
#[derive(Drop)]
pub struct Activities<'a> {
    act: &'a mut [f64],
    inc: f64,
}

impl<'a> Model for Activities<'a> {
    ghost use Rattle.model.specs.State.{Activity};

    ghost Value = { Activity };

    ghost use Rattle.activity.specs.Activities.{activity};

    ghost view = { λ a. activity a.act.now a.inc };
}

impl<'a> Activities<'a> {
    // The start: every activity is 0, and the increment 1.
    pub fn new(act: &'a mut [f64]) -> Activities<'a>
        ensures { result ≡ initial_activity (length act.old) }
    {
        let inc = initial(act);
        Activities::from_parts(act, inc)
    }

    // Activities as they are found, and the increment to go on with: for a caller that did not begin with `new`.
    pub fn from_parts(act: &'a mut [f64], inc: f64) -> Activities<'a>
        ensures { result ≡ activity act.old inc }
    {
        Activities { act, inc }
    }

    pub fn activities(&self) -> &[f64]
        ensures { result.now ≡ self.now.activities }
    {
        self.act
    }

    // What the next bump adds.
    pub fn increment(&self) -> f64
        ensures { result ≡ self.now.increment }
    {
        self.inc
    }

    // The activities as they are now, in the caller's slice again, and the increment.
    pub fn into_parts(self) -> (&'a mut [f64], f64)
        ensures activities { result.0.now ≡ self.entry.activities }
        ensures increment { result.1 ≡ self.entry.increment }
    {
        let Activities { act, inc } = self;
        (act, inc)
    }

    // The activity of v grows by the increment.
    pub fn bump(&mut self, v: Var)
        requires { v.0 < length self.old.activities }
        ensures { self.new ≡ var_bump_activity self.old v.0 }
    {
        self.inc = bump(self.act, v, self.inc);
    }

    // The increment after a conflict.
    pub fn decay(&mut self)
        ensures { self.new ≡ var_decay_activity self.old }
    {
        self.inc = decay(self.inc);
    }

    // The unset variable of greatest activity, the lowest on a tie.
    pub fn pick(&self, values: &[u32]) -> Option<Var>
        requires { Sizes values.now self.now.activities }
        ensures { var_of result ≡ pick self.now.activities none 0 values.now }
    {
        pick(values, self.act)
    }
}

// The functions below are of any slice of activities, and of any increment: for a caller that keeps the two apart, or has the activities
// to read alone. The methods above are calls of them.

// The activities before the first step. The result is the first increment.
#[tactic(auto, unfolding(model::specs::State::initial_activity))]
pub fn initial(act: &mut [f64]) -> f64
    ensures { activity act.new result ≡ initial_activity (length act.old) }
{
    act.fill(0.0);
    1.0
}

// Each activity times 1e-100.
fn rescale(act: &mut [f64])
    ensures { act.new ≡ map scaled act.old }
{
    for x in act.iter_mut() {
        *x *= 1e-100;
    }
}

// The activity of v grows by the increment. The result is the increment afterwards.
pub fn bump(act: &mut [f64], v: Var, inc: f64) -> f64
    requires { v.0 < length act.old }
    ensures { activity act.new result ≡ var_bump_activity (activity act.old inc) v.0 }
{
    let i = v.0 as usize;
    let x = act[i] + inc;
    act[i] = x;
    if x > 1e100 {
        rescale(act);
        inc * 1e-100
    } else {
        inc
    }
}

// The increment after a conflict, whatever the activities are.
#[tactic(auto, unfolding(model::specs::Activity::var_decay_activity))]
pub fn decay(inc: f64) -> f64
    ensures { (acts : List Float) → activity acts result ≡ var_decay_activity (activity acts inc) }
{
    inc * (1.0 / 0.95)
}

// The best variable so far. Its activity is kept beside it: read anew at each variable, and with the tests in the other order,
// a run with 4,096 variables took half as many instructions again (docs/PERFORMANCE.md).
#[derive(Clone, Copy)]
struct Best {
    var: Var,
    top: f64,
}

// The better of the best so far and variable i. Few activities are above the best, so that test comes first.
fn better<'a>(values: &'a [u32], act: &'a [f64], b: Best, i: usize) -> Best
    requires sizes { Sizes values.now act.now }
    requires leads { Leads act.now values.now b }
    requires i_in_bounds { i < length values.now }
    ensures var_value { some result.var.0 ≡ better act.now (some b.var.0) i (get_or values.now i 0) }
    ensures leads_2 { Leads act.now values.now result }
{
    if b.top < act[i] && values[i] == UNDEF {
        Best {
            var: Var(i as u32),
            top: act[i],
        }
    } else {
        b
    }
}

// The first unset variable.
fn first_unset(values: &[u32]) -> Option<usize>
    ensures { result ≡ position (λ x. x == l_undef) values.now }
{
    values.iter().position(|x| *x == UNDEF)
}

// The unset variable of greatest activity, the lowest on a tie.
pub fn pick(values: &[u32], act: &[f64]) -> Option<Var>
    requires { Sizes values.now act.now }
    ensures { var_of result ≡ pick act.now none 0 values.now }
{
    let first = first_unset(values)?;
    let mut b = Best {
        var: Var(first as u32),
        top: act[first],
    };
    // By index: an iterator chain over values and activities took 2.6 to 3 times as long.
    for i in first + 1..values.len() {
        b = better(values, act, b, i);
    }
    Some(b.var)
}
