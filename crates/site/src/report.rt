// The report of a site: a byte for each machine, and one for each uplink.
// Kept: a machine's byte is 0 to 3 and an uplink's 0 or 1, as document 01's tables have them; marks are matched by their ranges, and the outputs are written by index (document 01).
ghost use Rattle.std.specs.Prelude.{◌≡◌, ◌<◌, length};
ghost use Rattle.plain.specs.Search.{some, count};
ghost use Rattle.plain.specs.Table.{tabulate};
ghost use Rattle.tables.specs.Report.{named, child, carried_member, stuck_child, stuck, in_two, split, ends, lone_end, lone, machine_byte, link_byte};

// What a report reads: of each machine where its uplink ends, its group and its mark, and which machine is the hub.
// Of two tests the one that mostly fails comes first.
#[derive(Clone, Copy)]
pub struct View<'a> {
    pub up: &'a [u16],
    pub group: &'a [u16],
    pub mark: &'a [u8],
    pub top: usize,
    ghost group_size: { length group.now ≡ length up.now },
    ghost mark_size: { length mark.now ≡ length up.now },
}

impl<'a> View<'a> {
    // Whether c is a child of w; the hub is no child.
    #[tactic(auto, unfolding(tables::specs::Report::child))]
    fn child(&self, w: usize, c: usize) -> bool
        requires { c < length self.now.up.now }
        ensures { result ≡ child self.now.top self.now.up.now w c }
    {
        self.up[c] as usize == w && c != self.top
    }

    // Whether m is a carried member of group g.
    fn carried_member(&self, g: usize, m: usize) -> bool
        requires { m < length self.now.up.now }
        ensures { result ≡ carried_member self.now.group.now self.now.mark.now g m }
    {
        self.group[m] as usize == g
            && match self.mark[m] {
                2 => true,
                0 | 1 | 3..=255 => false,
            }
    }

    // Whether group g has a carried member.
    // Kept: this and the other four searches are one `any` each over a test of its own; a function of them all would be no shorter than its calls. That a machine is one
    // speaks of an argument, so it stands in the contract of each test.
    fn group_carried(&self, g: usize) -> bool
        ensures { result ≡ some (length self.now.up.now) (carried_member self.now.group.now self.now.mark.now g) }
    {
        (0..self.up.len()).any(|m| self.carried_member(g, m))
    }

    // Whether c is a child of w whose group has no carried member.
    fn stuck_child(&self, w: usize, c: usize) -> bool
        requires { c < length self.now.up.now }
        ensures { result ≡ stuck_child self.now.top self.now.up.now self.now.group.now self.now.mark.now w c }
    {
        self.child(w, c) && !self.group_carried(self.group[c] as usize)
    }

    // Line 1: some child's group has no carried member.
    fn stuck(&self, w: usize) -> bool
        ensures { result ≡ stuck self.now.top self.now.up.now self.now.group.now self.now.mark.now w }
    {
        (0..self.up.len()).any(|c| self.stuck_child(w, c))
    }

    // Whether c and d are children of w in two groups.
    fn in_two(&self, w: usize, c: usize, d: usize) -> bool
        requires c_in { c < length self.now.up.now }
        requires d_in { d < length self.now.up.now }
        ensures { result ≡ in_two self.now.top self.now.up.now self.now.group.now w c d }
    {
        self.child(w, c) && self.child(w, d) && self.group[c] != self.group[d]
    }

    // Whether some child of w is in another group than its child c.
    fn other_group(&self, w: usize, c: usize) -> bool
        requires { c < length self.now.up.now }
        ensures { result ≡ some (length self.now.up.now) (in_two self.now.top self.now.up.now self.now.group.now w c) }
    {
        (0..self.up.len()).any(|d| self.in_two(w, c, d))
    }

    // Line 2: the children are in two or more groups.
    fn split(&self, w: usize) -> bool
        ensures { result ≡ split self.now.top self.now.up.now self.now.group.now w }
    {
        (0..self.up.len()).any(|c| self.other_group(w, c))
    }

    // Whether the uplink of v ends at w: it is w's own or a child's.
    #[tactic(auto, unfolding(tables::specs::Report::ends))]
    fn ends(&self, w: usize, v: usize) -> bool
        requires { v < length self.now.up.now }
        ensures { result ≡ ends self.now.top self.now.up.now w v }
    {
        (v == w || self.up[v] as usize == w) && v != self.top
    }

    // Whether the uplink of v ends at w and is lone.
    fn lone_end(&self, w: usize, v: usize) -> bool
        requires { v < length self.now.up.now }
        ensures { result ≡ lone_end self.now.top self.now.up.now self.now.mark.now w v }
    {
        self.ends(w, v)
            && match self.mark[v] {
                0 => true,
                1..=255 => false,
            }
    }

    // Whether some lone uplink ends at w.
    fn ends_lone(&self, w: usize) -> bool
        ensures { result ≡ some (length self.now.up.now) (lone_end self.now.top self.now.up.now self.now.mark.now w) }
    {
        (0..self.up.len()).any(|v| self.lone_end(w, v))
    }

    // How many uplinks end at w.
    fn count_ends(&self, w: usize) -> usize
        ensures { result ≡ count (length self.now.up.now) (ends self.now.top self.now.up.now w) }
    {
        (0..self.up.len()).filter(|v| self.ends(w, *v)).count()
    }

    // Line 3: w ends a lone uplink, and two or more uplinks end at w.
    #[tactic(auto, unfolding(tables::specs::Report::lone))]
    fn lone(&self, w: usize) -> bool
        ensures { result ≡ lone self.now.top self.now.up.now self.now.mark.now w }
    {
        self.ends_lone(w) && 2 <= self.count_ends(w)
    }

    // The machine byte of w: the first line that applies. Only the hub has line 2, and it has no line 1.
    #[tactic(auto, unfolding(tables::specs::Report::machine_byte))]
    fn machine_byte(&self, w: usize) -> u8
        ensures { result ≡ machine_byte self.now.top self.now.up.now self.now.group.now self.now.mark.now w }
    {
        if w != self.top && self.stuck(w) {
            1
        } else if w == self.top && self.split(w) {
            2
        } else if self.lone(w) {
            3
        } else {
            0
        }
    }

    // The link byte of v: 1 if v is not the hub and its mark is 0.
    fn link_byte(&self, v: usize) -> u8
        requires { v < length self.now.up.now }
        ensures { result ≡ link_byte self.now.top self.now.mark.now v }
    {
        if v == self.top {
            return 0;
        }
        match self.mark[v] {
            0 => 1,
            1..=255 => 0,
        }
    }

    // Fills both outputs, in number order, and says how many machines it names.
    #[tactic(auto, using(plain::proofs::Fill::fill_end))]
    pub fn fill(&self, machines: &mut [u8], links: &mut [u8]) -> usize
        requires machines_size { length machines.old ≡ length self.now.up.now }
        requires links_size { length links.old ≡ length self.now.up.now }
        ensures machines_are { machines.new ≡ tabulate (length self.now.up.now) (machine_byte self.now.top self.now.up.now self.now.group.now self.now.mark.now) }
        ensures links_are { links.new ≡ tabulate (length self.now.up.now) (link_byte self.now.top self.now.mark.now) }
        ensures counted { result ≡ named machines.new }
    {
        for w in 0..self.up.len() {
            machines[w] = self.machine_byte(w);
            links[w] = self.link_byte(w);
        }
        machines.iter().filter(|b| **b != 0).count()
    }
}
