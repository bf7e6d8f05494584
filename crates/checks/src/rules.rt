// The rules behind code 6: each is a test of one machine, and the least machine that breaks one is refused.
ghost use Rattle.std.specs.Prelude.{◌≡◌, ◌<◌, length, leb};
ghost use Rattle.tables.specs.Rules.{depth_rule, hub_rule, mark_rule, group_rule, partner_rule, carried_rule, rules_verdict};
ghost use Rattle.tables.specs.Rules;
ghost use Rattle.tables.specs.Tables.{tables_of};
ghost use Rattle.checks.specs.RulesCheck.{Sized};

use tables::{Fault, Verdict};

// The four tables and the hub: each table has an entry for each machine, and each entry of `up` is a machine.
#[derive(Clone, Copy)]
pub struct Tables<'a> {
    pub up: &'a [u16],
    pub depth: &'a [u16],
    pub group: &'a [u16],
    pub mark: &'a [u8],
    pub top: usize,
    ghost sized: { Sized up.now depth.now group.now mark.now top },
}

// Whether a mark is at least 1.
fn ringed(mark: u8) -> bool
    ensures { result ≡ leb 1 mark }
{
    match mark {
        0 => false,
        1..=255 => true,
    }
}

// Kept: that v is a machine stands in each contract; a type that says so would have to hold the tables too, which is no plainer than `v`.
impl Tables<'_> {
    // Depth is 0 at the hub, else one more than that of up[v].
    fn depth_rule(&self, v: usize) -> bool
        requires { v < length self.now.up.now }
        ensures { result ≡ depth_rule self.now.top self.now.up.now self.now.depth.now v }
    {
        let depth = self.depth[v] as usize;
        if v == self.top {
            depth == 0
        } else {
            depth == self.depth[self.up[v] as usize] as usize + 1
        }
    }

    // The hub has mark 0 and its own group.
    fn hub_rule(&self, v: usize) -> bool
        requires { v < length self.now.up.now }
        ensures { result ≡ hub_rule self.now.top self.now.group.now self.now.mark.now v }
    {
        if v != self.top {
            return true;
        }
        match self.mark[v] {
            0 => self.group[v] as usize == v,
            1..=255 => false,
        }
    }

    // A mark is at most 2.
    fn mark_rule(&self, v: usize) -> bool
        requires { v < length self.now.up.now }
        ensures { result ≡ mark_rule self.now.mark.now v }
    {
        match self.mark[v] {
            0..=2 => true,
            3..=255 => false,
        }
    }

    // The group of any other machine is named by a child of the same machine, at most v and of its own group.
    fn group_rule(&self, v: usize) -> bool
        requires { v < length self.now.up.now }
        ensures { result ≡ group_rule self.now.top self.now.up.now self.now.group.now v }
    {
        let g = self.group[v] as usize;
        v == self.top
            || g <= v && g != self.top && self.up[g] == self.up[v] && self.group[g] as usize == g
    }

    // A machine that is not the name of its group is ringed, and so is the name. A name that is no machine is not ringed.
    fn partner_rule(&self, v: usize) -> bool
        requires { v < length self.now.up.now }
        ensures { result ≡ partner_rule self.now.top self.now.group.now self.now.mark.now v }
    {
        let g = self.group[v] as usize;
        v == self.top
            || g == v
            || g < self.mark.len() && ringed(self.mark[g]) && ringed(self.mark[v])
    }

    // The machine above a carried one is ringed, and is not the hub.
    fn carried_rule(&self, v: usize) -> bool
        requires { v < length self.now.up.now }
        ensures { result ≡ carried_rule self.now.top self.now.up.now self.now.mark.now v }
    {
        let above = self.up[v] as usize;
        match self.mark[v] {
            2 => above != self.top && ringed(self.mark[above]),
            0 | 1 | 3..=255 => true,
        }
    }

    // Whether machine v keeps every rule.
    fn keeps(&self, v: usize) -> bool
        requires { v < length self.now.up.now }
        ensures { result ≡ Rules.keeps self.now.top self.now.up.now (tables_of self.now.depth.now self.now.group.now self.now.mark.now) v }
    {
        self.depth_rule(v)
            && self.hub_rule(v)
            && self.mark_rule(v)
            && self.group_rule(v)
            && self.partner_rule(v)
            && self.carried_rule(v)
    }

    // Every machine in turn, up to the first that breaks a rule.
    pub fn check(&self) -> Verdict
        ensures { result ≡ rules_verdict self.now.up.now (tables_of self.now.depth.now self.now.group.now self.now.mark.now) }
    {
        for v in 0..self.up.len() {
            if !self.keeps(v) {
                return Verdict::Refused(Fault::Rule, v);
            }
        }
        Verdict::Sound
    }
}
