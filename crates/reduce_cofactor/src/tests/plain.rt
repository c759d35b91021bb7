//! Reductions made anew for each step, as they are defined, beside those of the crate.

ghost use Rattle.std.specs.Prelude.{◌<◌};

use super::{place, push, sum};
use crate::{ReduceFault, Step, VecList, reduce};
use module_vec::{COEFFICIENT, Entries, ModVec, Place, Stop, Term, VecFault};
use std::alloc::Global;
use std::test::Fail;

/// A chain's end, or the limit that it met.
#[derive(Drop)]
enum Answer {
    Rest(ModVec, Vec<Step>),
    Stopped(Stop),
}

/// The reducer of the place, and its lead.
fn find(list: &Entries, at: &Place) -> Option<(u32, Term)> {
    let mut best = None;
    for by in 0..list.count() {
        let lead = list.vector(by).lead()?;
        if lead.at.c == at.c && lead.at.m.divides(&at.m) && goes_before(&lead, &best) {
            best = Some((by, lead));
        }
    }
    best
}

/// Whether an entry with this lead goes before the best one with a smaller number.
fn goes_before(lead: &Term, best: &Option<(u32, Term)>) -> bool {
    match best {
        Some((_, other)) => lead.k < other.k,
        None => true,
    }
}

/// The quotient, rounded downwards.
fn floor(k: i128, l: i128) -> Option<i128> {
    let towards_zero = k.checked_div(l)?;
    if k.checked_rem(l)? < 0 {
        return towards_zero.checked_sub(1);
    }
    Some(towards_zero)
}

/// The step at the first of the terms where one is due.
fn next(list: &Entries, terms: &[Term]) -> Result<Option<Step>, Fail> {
    for term in terms {
        let Some((by, lead)) = find(list, &term.at) else {
            continue;
        };
        let q = floor(term.k, lead.k).ok_or("no quotient")?;
        if q != 0 && lead.at.m.divides(&term.at.m) {
            let t = term.at.m.quotient(&lead.at.m);
            return Ok(Some(Step { q, t, by }));
        }
    }
    Ok(None)
}

fn reduce_plainly(alloc: Global, list: &Entries, v: ModVec) -> Result<Answer, Fail> {
    let mut vector = v;
    let mut steps = Vec::new(alloc);
    for number in 1..1000 {
        let Some(step) = next(list, vector.terms())? else {
            return Ok(Answer::Rest(vector, steps));
        };
        if step.by >= list.count() {
            return Err(Fail::from("no entry"));
        }
        let entry = list.vector(step.by);
        if step.q.unsigned_abs() > COEFFICIENT || !entry.has_room(&step.t) {
            return Err(Fail::from("out of reach"));
        }
        match vector.sub_multiple(alloc, step.q, &step.t, entry) {
            Ok(left) => vector = left,
            Err(VecFault::Stop(Stop::Wide { at, .. })) => {
                return Ok(Answer::Stopped(Stop::Wide { at, step: number }));
            }
            Err(_) => return Err(Fail::from("no vector")),
        }
        steps.push(step)?;
    }
    Err(Fail::from("too many steps"))
}

/// Numbers that look random.
#[derive(Drop)]
struct Numbers {
    state: u64,
}

impl Numbers {
    /// A number below `count`.
    fn below(&mut self, count: u64) -> u64
        requires { 0 < count }
        ensures { result < count }
    {
        self.state = self
            .state
            .wrapping_mul(6_364_136_223_846_793_005)
            .wrapping_add(1_442_695_040_888_963_407);
        (self.state >> 33) % count
    }

    /// The sum of so many terms, with exponents below `size` and coefficients of two sizes.
    fn vector(&mut self, alloc: Global, terms: u32, size: u64) -> Result<ModVec, Fail>
        requires some { 0 < size }
        requires small { size < 10 }
    {
        let mut list = Vec::new(alloc);
        for _ in 0..terms {
            let exponents = [self.below(size) as i32, self.below(size) as i32, 0];
            let c = self.below(2) as u8;
            let small = self.below(19) as i128 - 9;
            let unit = if self.below(9) == 0 { 1 << 120 } else { 1 };
            let k = small.checked_mul(unit).ok_or("too great")?;
            let at = place(exponents, c)?;
            list.push(Term { at, k })?;
        }
        sum(alloc, list.as_slice())
    }

    /// A vector with a positive lead coefficient.
    fn entry(&mut self, alloc: Global) -> Result<ModVec, Fail> {
        for _ in 0..100 {
            let mut v = self.vector(alloc, 3, 3)?;
            match v.lead() {
                Some(lead) if lead.k < 0 => v.negate(),
                Some(_) => {}
                None => continue,
            }
            return Ok(v);
        }
        Err(Fail::from("no lead"))
    }
}

#[test]
fn reductions_agree_with_the_definition(rt: HostRuntime) -> Result<(), Fail> {
    let alloc = rt.alloc();
    let mut numbers = Numbers { state: 1 };
    let mut stops = 0u32;
    let mut long = 0u32;
    for _ in 0..300u32 {
        let mut list = Entries::new(alloc);
        for _ in 0..4u32 {
            push(&mut list, numbers.entry(alloc)?)?;
        }
        let v = numbers.vector(alloc, 12, 4)?;
        let answer = reduce(alloc, &list, list.count(), &v);
        match (answer, reduce_plainly(alloc, &list, v)?) {
            (Ok((w, steps)), Answer::Rest(wanted, wanted_steps)) => {
                assert!(rt; w.terms() == wanted.terms());
                assert!(rt; steps == wanted_steps);
                if steps.len() > 5 {
                    long = long.saturating_add(1);
                }
            }
            (Err(ReduceFault::Stop(stop)), Answer::Stopped(wanted)) => {
                assert!(rt; stop == wanted);
                stops = stops.saturating_add(1);
            }
            _ => return Err(Fail::from("the answers differ")),
        }
    }
    assert!(rt; stops > 20 && long > 50, "{stops} {long}");
    Ok(())
}
