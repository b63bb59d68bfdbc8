// What a step is judged with: registers and what becomes of them, what a segment says, and what changes; and the two functions that every part asks.
// Above: `plan_stack`, `plan_places`, `plan_calls` and `plan_pool`, what each meaning comes to, and all that names registers; below: the definition of a step.
#![tactic(auto)]

ghost use Rattle.std.specs.Prelude.{◌≡◌, List, ℕ, ◌-◌, ◌≤◌, ◌<◌, min, length, get_or};
ghost use Rattle.pmachine.specs.Step.{moved, lowered};
ghost use Rattle.plan.specs.Answer.{regs_of, outcome_of};
ghost use Rattle.plan.specs.Mirror.{pushed};

// Stack pointer, record pointer, counter, current routine, and the lowest stack pointer reached since opening: fields of one width, so that a loop
// keeps them in registers. This is the part of a session record that a step can change besides the kind.
#[derive(Clone, Copy)]
pub struct Regs {
    pub sp: usize,
    pub m: usize,
    pub counter: usize,
    pub routine: usize,
    pub lowest: usize,
}

// What a step does to the registers, by value: each hands the record back with the lowest stack pointer as it then is.
impl Regs {
    // A stack pointer that may lie lower than before.
    pub fn push(self, sp: usize) -> Self
        ensures { regs_of result ≡ lowered (moved (regs_of self) sp self.counter) }
    {
        Self {
            sp,
            m: self.m,
            counter: self.counter,
            routine: self.routine,
            lowest: lower(self.lowest, sp),
        }
    }

    // A stack pointer that does not lie lower than before: nothing to compare.
    pub fn pop(self, sp: usize) -> Self
        ensures { regs_of result ≡ moved (regs_of self) sp self.counter }
    {
        Self {
            sp,
            m: self.m,
            counter: self.counter,
            routine: self.routine,
            lowest: self.lowest,
        }
    }

    pub fn move_counter(self, counter: usize) -> Self
        ensures { regs_of result ≡ moved (regs_of self) self.sp counter }
    {
        Self {
            sp: self.sp,
            m: self.m,
            counter,
            routine: self.routine,
            lowest: self.lowest,
        }
    }

    // Another record, and its routine: calls and returns.
    pub fn enter(self, m: usize, routine: usize) -> Self
        ensures { regs_of result ≡ record { sp = self.sp; m = m; counter = self.counter; routine = routine; lowest = self.lowest } }
    {
        Self {
            sp: self.sp,
            m,
            counter: self.counter,
            routine,
            lowest: self.lowest,
        }
    }
}

// The lesser of two numbers.
fn lower(a: usize, b: usize) -> usize
    ensures { result ≡ min a b }
{
    if b < a { b } else { a }
}

// What a segment says, read once a turn. Sex 0 is least byte first, 1 most byte first; `reals` is where the real pool starts, the end of what can be
// read of the pool; floor is 6+G.
#[derive(Clone, Copy)]
pub struct Facts {
    pub sex: usize,
    pub dict: usize,
    pub count: usize,
    pub pool: usize,
    pub reals: usize,
    pub floor: usize,
}

// What changes, and nothing more: a wider answer would pass through memory at every step. Words stand before the wider numbers, so that
// each place of the answer has one width in all variants.
#[derive(Clone, Copy)]
pub enum Planned {
    // stack pointer, counter
    Move(usize, usize),
    // a word, stack pointer, counter, and the place of the word
    Put(u16, usize, usize, usize),
    // a word pushed, stack pointer, counter
    Push(u16, usize, usize),
    // a word in the place of the top one, counter
    One(u16, usize),
    // a word in the place of the two top ones, counter
    Two(u16, usize),
    // the two top words, counter
    Swap(u16, u16, usize),
    // lexical parent, the byte after the call; stack and record pointer, counter, routine
    Call(u16, u16, usize, usize, usize),
    // stack pointer, record pointer, counter, routine
    Back(usize, usize, usize, usize),
    // the segment's word that is pushed first, how many are pushed, counter, and the sex in which each word is read
    Block(u16, usize, usize, usize),
    // a fault, by document 01's number: an enum in its place takes 5.5 to 7.6 x86-64 instructions a step more, and 2.8 to 4.4 if only `Result`s hold it
    Bad(u8),
    Finish,
}

// Where a routine that is entered stands: its record, which is the stack pointer too, and its first byte.
#[derive(Clone, Copy)]
pub struct Entry {
    pub sp: usize,
    pub counter: usize,
}

// What a case table has for an index: a distance to jump by, nothing, so that the session goes on, or a word that cannot be read.
#[derive(Clone, Copy)]
pub enum Case {
    By(u16),
    On,
    Unread,
}

// The instructions on one word, on two, and the divisions, by their names in appendix B.
#[derive(Clone, Copy)]
pub enum Unary {
    Abi,
    Ngi,
    Lnot,
    Inci,
    Deci,
}

#[derive(Clone, Copy)]
pub enum Binary {
    Mpi,
    Lor,
    Land,
    Adi,
    Sbi,
    Equi,
    Neqi,
    Leqi,
    Geqi,
    Leusw,
    Geusw,
}

#[derive(Clone, Copy)]
pub enum Division {
    Dvi,
    Modi,
}

// A word of a region, or of the shared words.
pub fn word_of(words: &[u16], at: usize) -> u16
    requires { at < length words.now }
    ensures { result ≡ get_or words.now at 0 }
{
    words[at]
}

// A word on the stack, if it has room.
#[tactic(auto, unfolding(crate::specs::Answer::outcome_of, crate::specs::Mirror::pushed))]
pub fn push(floor: usize, r: Regs, next: usize, v: u16) -> Planned
    requires { 1 ≤ r.sp }
    ensures { (s : List ℕ) → outcome_of s r result ≡ pushed floor (regs_of r) next v }
{
    let sp = r.sp - 1;
    if sp < floor {
        Planned::Bad(4)
    } else {
        Planned::Push(v, sp, next)
    }
}
