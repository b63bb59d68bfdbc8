// The checks of a step, each with the numbers that it judged: what is found before any word of it is said.
// Above it: every other module here. Below it: nothing.
ghost use Rattle.std.specs.Prelude.{◌≡◌};
ghost use Rattle.cause.specs.Fault.{code_fault, stack_fault, flow_fault, fault_of};

// The check that failed, by theme.
#[derive(Clone, Copy)]
pub enum Why {
    Code(Code),
    Stack(Stack),
    Place(Place),
    Address(Address),
    Flow(Flow),
}

// Faults 1 and 2: the instruction itself.
#[derive(Clone, Copy)]
pub enum Code {
    // its first byte lies outside the code
    Begins,
    // the first byte of it that is missing
    Ends(usize),
    // its first byte
    Uncarried(u8),
    // its DB operand
    Level(u16),
}

// Faults 3, 5, 10 and 4: words of the stack, and the room for more.
#[derive(Clone, Copy)]
pub enum Stack {
    // words taken, words there
    Few(u8, usize),
    // the dividend
    Zero(u16),
    // value, low, high
    Range(u16, u16, u16),
    // SP after it
    Deep(usize),
    // routine, its DATASIZE, words free
    Room(u16, u16, usize),
    // words pushed from the pool, words free
    Block(u16, usize),
}

// Fault 6 of a word that the operands name.
#[derive(Clone, Copy)]
pub enum Place {
    // offset x of the record at m is a word
    Offset(u16, u16, usize),
    // no pool; the constant's number and its word
    NoPool,
    Pool(u16, usize),
    // the first and the last of the words of the pool that are pushed, and the word before which they must lie
    Constants(u32, u32, usize),
    // no pool for a case table; the first of the two words with its lowest and highest index, and the word before which they must lie
    NoTable,
    Table(u32, usize),
    // an index, its word of the table, and the word before which that must lie
    Arm(u16, u32, usize),
}

// Fault 6 of an address from the stack.
#[derive(Clone, Copy)]
pub enum Address {
    // base and index: NIL, beyond every address, a word that is not there, a shared word that is not there
    Nil(u16),
    Above(u16, u16),
    Word(u16, u16),
    Shared(u16, u16),
    // a store to NIL, to a word that is not there, to a shared word
    StoreNil,
    StoreWord(u16),
    StoreShared(u16),
}

// A static link that leads to no record: of how many links, how many were left with it, the word where it stands, and what it holds.
#[derive(Clone, Copy)]
pub struct BadLink {
    pub of: u16,
    pub left: u16,
    pub at: u16,
    pub value: u16,
}

// Faults 7, 8 and 9.
#[derive(Clone, Copy)]
pub enum Flow {
    // the jump's target; how far it lies below 0
    Target(usize),
    Before(usize),
    // the same of a case table, and the index that leads there
    Case(u16, usize),
    CaseBefore(u16, usize),
    // the routine called: not there, or not linked
    Routine(u16),
    Unlinked(u16),
    Link(BadLink),
    // what the mark's first bad word holds: MSDYN, MSPROC, MSENDV, MSIPC
    Dynamic(u16),
    Caller(u16),
    Segment(u16),
    Resume(u16),
    // SP after the return, and the words that it drops
    Back(usize, u16),
}

// A bad link, so that `?` hands it on as the check that failed.
impl From<BadLink> for Why {
    fn from(link: BadLink) -> Why {
        Why::Flow(Flow::Link(link))
    }
}

// The fault that a check gives; 0 for none.
pub fn fault_of(found: Result<(), Why>) -> u8
    ensures { result ≡ fault_of found }
{
    match found {
        Ok(()) => 0,
        Err(Why::Code(c)) => of_code(c),
        Err(Why::Stack(s)) => of_stack(s),
        Err(Why::Place(_)) => 6,
        Err(Why::Address(_)) => 6,
        Err(Why::Flow(f)) => of_flow(f),
    }
}

fn of_code(c: Code) -> u8
    ensures { result ≡ code_fault c }
{
    match c {
        Code::Begins => 1,
        Code::Ends(_) => 1,
        Code::Uncarried(_) => 2,
        Code::Level(_) => 2,
    }
}

fn of_stack(s: Stack) -> u8
    ensures { result ≡ stack_fault s }
{
    match s {
        Stack::Few(_, _) => 3,
        Stack::Zero(_) => 5,
        Stack::Range(_, _, _) => 10,
        Stack::Deep(_) => 4,
        Stack::Room(_, _, _) => 4,
        Stack::Block(_, _) => 4,
    }
}

fn of_flow(f: Flow) -> u8
    ensures { result ≡ flow_fault f }
{
    match f {
        Flow::Target(_) => 7,
        Flow::Before(_) => 7,
        Flow::Case(_, _) => 7,
        Flow::CaseBefore(_, _) => 7,
        Flow::Routine(_) => 8,
        Flow::Unlinked(_) => 8,
        Flow::Link(_) => 9,
        Flow::Dynamic(_) => 9,
        Flow::Caller(_) => 9,
        Flow::Segment(_) => 9,
        Flow::Resume(_) => 9,
        Flow::Back(_, _) => 9,
    }
}
