// What the judge answers to a line: why it is refused, or its findings in their order.
#![tactic(auto)]

ghost use Rattle.std.specs.Prelude.{◌≡◌, []};
ghost use Rattle.answers.specs.Answer.{findings_of, with_found, found_if};
ghost use Rattle.answers.specs.Listed.{of_rule, listed, is_clean};

use history::Finding;
use lines::refusal::Refusal;
use words::Handle;

const MOST: usize = 6;

// The findings of an accepted line: of the six the first `count` are the line's, the others all 0. Six at the most, in fixed memory: there is no heap.
#[derive(Clone, Copy)]
pub struct Findings {
    pub found: [Finding; 6],
    pub count: usize,
}

// What a line is answered: its findings, or why it is refused.
pub type Answer = Result<Findings, Refusal>;

// What was judged of a line: the rules that it breaks as a whole, and the rule that each place breaks, if any.
#[derive(Clone, Copy)]
pub struct Judged {
    pub line: u32,
    pub foreign: bool,
    pub env: Handle,
    pub pending: bool,
    pub critical: bool,
    pub unheld: bool,
    pub unpushed: bool,
    pub rule1: Option<u32>,
    pub a: Handle,
    pub rule2: Option<u32>,
    pub b: Handle,
    pub rule3: Option<u32>,
    pub c: Handle,
}

impl Findings {
    pub fn none() -> Findings
        ensures { result ≡ findings_of [] }
    {
        let none = Finding {
            line: 0,
            rule: 0,
            place: 0,
            thing: 0,
        };
        Findings {
            found: [none; 6],
            count: 0,
        }
    }

    // One finding more.
    fn and(self, found: Finding) -> Findings
        ensures { result ≡ with_found self found }
    {
        let n = self.count;
        if MOST <= n {
            return self;
        }
        let mut next = self;
        next.found[n] = found;
        next.count = n + 1;
        next
    }

    // One finding more, if there is one.
    pub fn and_if(self, is: bool, line: u32, rule: u32, place: u32, thing: Handle) -> Findings
        ensures { result ≡ found_if self is line rule place thing }
    {
        if is {
            self.and(Finding {
                line,
                rule,
                place,
                thing,
            })
        } else {
            self
        }
    }

    // The findings of one rule, by place.
    fn and_rule(self, x: Judged, rule: u32, whole: bool, thing: Handle) -> Findings
        ensures { result ≡ of_rule self x rule whole thing }
    {
        let broken = Some(rule);
        self.and_if(whole, x.line, rule, 0, thing)
            .and_if(broken == x.rule1, x.line, rule, 1, x.a)
            .and_if(broken == x.rule2, x.line, rule, 2, x.b)
            .and_if(broken == x.rule3, x.line, rule, 3, x.c)
    }
}

impl Judged {
    // All the findings of a line, by rule and place.
    fn list_all(self) -> Findings
        ensures { result ≡ findings_of (listed self) }
    {
        Findings::none()
            .and_rule(self, 1, self.foreign, self.env)
            .and_rule(self, 2, self.pending, 0)
            .and_rule(self, 3, self.critical, 0)
            .and_rule(self, 4, false, 0)
            .and_rule(self, 5, false, 0)
            .and_rule(self, 6, false, 0)
            .and_rule(self, 7, false, 0)
            .and_rule(self, 8, false, 0)
            .and_rule(self, 9, self.unheld, 0)
            .and_rule(self, 10, false, 0)
            .and_rule(self, 11, self.unpushed, 0)
    }

    fn is_clean(self) -> bool
        ensures { result ≡ is_clean self }
    {
        !(self.foreign | self.pending | self.critical | self.unheld | self.unpushed)
            & self.rule1.is_none()
            & self.rule2.is_none()
            & self.rule3.is_none()
    }

    // The findings of a line; most lines have none.
    pub fn findings(self) -> Findings
        ensures { result ≡ findings_of (listed self) }
    {
        if self.is_clean() {
            return Findings::none();
        }
        self.list_all()
    }
}
