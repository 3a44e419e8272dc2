// Orders, lists, asks and answers as C has them: their fields side by side, flags as numbers. [9.19]
// Apart from `c_values`, so that a wrong conversion of either is tried in seconds.
// An array comes from one struct into another by a variable: the check does not follow one that is put there straight from a field.
#![tactic(auto)]

ghost use Rattle.std.specs.Prelude.{◌≡◌, ◌≤◌, IfOk};
ghost use Rattle.paper.specs.Outcomes.{told};
ghost use Rattle.paper.specs.Limits.{most_coordinates};
ghost use Rattle.c_lists.specs.Values.{order_in, order_out, list_in, list_out, opened_out, taken_out, scope_from, extent_out, ask_fields, ask_out, answer_fields, answer_out, claim_out};

use checks::{flag, is_far, order_by};
use paper::limits::{ITEM_ROOM, MOST_COORDINATES};
use paper::lines::{Answer, Ask, ClaimLine, Scope};
use paper::lists::List;
use paper::orders::Order;
use paper::queries::Query;
use paper::refusals::Refusal;

// What an ask and an answer have behind the probe: the reach, and a scope.
#[repr(C)]
#[derive(Clone, Copy)]
pub struct Extent {
    pub reach: u64,
    pub from: u8,
    pub snapshot: u16,
    pub distance: u64,
    pub number: u16,
}

// The fields of an ask.
#[repr(C)]
#[derive(Clone, Copy)]
pub struct AskFields {
    pub table: u32,
    pub order: u8,
    pub measure: u8,
    pub d: u8,
    pub probe: [i32; MOST_COORDINATES],
    pub scope: Extent,
    pub size: u8,
}

// The fields of an answer.
#[repr(C)]
#[derive(Clone, Copy)]
pub struct AnswerFields {
    pub table: u32,
    pub order: u8,
    pub measure: u8,
    pub d: u8,
    pub probe: [i32; MOST_COORDINATES],
    pub scope: Extent,
    pub last: u8,
    pub count: u8,
    pub items: [u64; ITEM_ROOM],
}

// An ask's line, read.
#[repr(C)]
#[derive(Clone, Copy)]
pub struct AskShown {
    pub refusal: u8,
    pub ask: AskFields,
}

// An answer's line, read.
#[repr(C)]
#[derive(Clone, Copy)]
pub struct AnswerShown {
    pub refusal: u8,
    pub answer: AnswerFields,
}

// A claim's line, read.
#[repr(C)]
#[derive(Clone, Copy)]
pub struct ClaimShown {
    pub refusal: u8,
    pub claim: ClaimLine,
}

// A tablet's list: its query and its fields side by side, with flags as numbers. The order is a flag, on for far.
#[repr(C)]
#[derive(Clone, Copy)]
pub struct Listing {
    pub table: u32,
    pub order: u8,
    pub measure: u8,
    pub started: u8,
    pub complete: u8,
    pub d: usize,
    pub probe: [i32; MOST_COORDINATES],
    pub reach: u64,
    pub snapshot: u64,
    pub count: usize,
}

// A list after opening or taking.
#[repr(C)]
#[derive(Clone, Copy)]
pub struct Listed {
    pub refusal: u8,
    pub list: Listing,
}

// An order from a flag, and back. Both types are of other crates, so no `From` can stand between them here.
pub fn order_in(order: u8) -> Order
    ensures { result ≡ order_in order }
{
    order_by(order != 0)
}

fn order_out(order: Order) -> u8
    ensures { result ≡ order_out order }
{
    flag(is_far(order))
}

impl From<Listing> for List {
    ghost from_gives = { λ l x. x ≡ list_in l };

    fn from(l: Listing) -> List {
        let probe = l.probe;
        List {
            query: Query {
                order: order_in(l.order),
                table: l.table,
                measure: l.measure,
                d: l.d,
                probe,
                reach: l.reach,
            },
            started: l.started != 0,
            snapshot: l.snapshot,
            count: l.count,
            complete: l.complete != 0,
        }
    }
}

impl From<List> for Listing {
    ghost from_gives = { λ x l. l ≡ list_out x };

    fn from(l: List) -> Listing {
        let probe = l.query.probe;
        Listing {
            table: l.query.table,
            order: order_out(l.query.order),
            measure: l.query.measure,
            started: flag(l.started),
            complete: flag(l.complete),
            d: l.query.d,
            probe,
            reach: l.query.reach,
            snapshot: l.snapshot,
            count: l.count,
        }
    }
}

// [9.13] Beside a refusal stands the list as it came.
pub fn list_taken(came: List, taken: Result<List, Refusal>) -> Listed
    ensures { result ≡ taken_out came (told taken) }
{
    match taken {
        Ok(list) => Listed {
            refusal: 0,
            list: Listing::from(list),
        },
        Err(why) => Listed {
            refusal: why.number(),
            list: Listing::from(came),
        },
    }
}

// [9.11] Zeros stand beside a refusal.
impl From<Result<List, Refusal>> for Listed {
    ghost from_gives = { λ r l. l ≡ opened_out (told r) };

    fn from(opened: Result<List, Refusal>) -> Listed {
        let none = List {
            query: Query::NONE,
            started: false,
            snapshot: 0,
            count: 0,
            complete: false,
        };
        list_taken(none, opened)
    }
}

impl From<Extent> for Scope {
    ghost from_gives = { λ p s. s ≡ scope_from p };

    fn from(p: Extent) -> Scope {
        Scope {
            from: p.from,
            snapshot: p.snapshot,
            distance: p.distance,
            number: p.number,
        }
    }
}

fn extent_of(reach: u64, p: Scope) -> Extent
    ensures { result ≡ extent_out reach p }
{
    Extent {
        reach,
        from: p.from,
        snapshot: p.snapshot,
        distance: p.distance,
        number: p.number,
    }
}

fn ask_fields(a: Ask) -> AskFields
    requires { a.query.d ≤ most_coordinates }
    ensures { result ≡ ask_fields a }
{
    let probe = a.query.probe;
    AskFields {
        table: a.query.table,
        order: order_out(a.query.order),
        measure: a.query.measure,
        d: a.query.d as u8,
        probe,
        scope: extent_of(a.query.reach, a.scope),
        size: a.size,
    }
}

// [5.14] Zeros stand beside a refusal. No `From`, which could not ask for a d that is small enough.
pub fn ask_out(read: Result<Ask, Refusal>) -> AskShown
    requires { IfOk read (λ a. a.query.d ≤ most_coordinates) }
    ensures { result ≡ ask_out (told read) }
{
    match read {
        Ok(a) => AskShown {
            refusal: 0,
            ask: ask_fields(a),
        },
        Err(why) => AskShown {
            refusal: why.number(),
            ask: ask_fields(Ask {
                query: Query::NONE,
                scope: Scope::NONE,
                size: 0,
            }),
        },
    }
}

fn answer_fields(y: Answer) -> AnswerFields
    requires { y.query.d ≤ most_coordinates }
    ensures { result ≡ answer_fields y }
{
    let probe = y.query.probe;
    let items = y.items;
    AnswerFields {
        table: y.query.table,
        order: order_out(y.query.order),
        measure: y.query.measure,
        d: y.query.d as u8,
        probe,
        scope: extent_of(y.query.reach, y.scope),
        last: y.last,
        count: y.count,
        items,
    }
}

// [5.14] Zeros stand beside a refusal. No `From`, as `ask_out`.
pub fn answer_out(read: Result<Answer, Refusal>) -> AnswerShown
    requires { IfOk read (λ y. y.query.d ≤ most_coordinates) }
    ensures { result ≡ answer_out (told read) }
{
    match read {
        Ok(y) => AnswerShown {
            refusal: 0,
            answer: answer_fields(y),
        },
        Err(why) => AnswerShown {
            refusal: why.number(),
            answer: answer_fields(Answer {
                last: 0,
                count: 0,
                scope: Scope::NONE,
                query: Query::NONE,
                items: [0u64; ITEM_ROOM],
            }),
        },
    }
}

// [5.14] Zeros stand beside a refusal.
impl From<Result<ClaimLine, Refusal>> for ClaimShown {
    ghost from_gives = { λ r c. c ≡ claim_out (told r) };

    fn from(read: Result<ClaimLine, Refusal>) -> ClaimShown {
        match read {
            Ok(claim) => ClaimShown { refusal: 0, claim },
            Err(why) => ClaimShown {
                refusal: why.number(),
                claim: ClaimLine {
                    table: 0,
                    measure: 0,
                    d: 0,
                    reference: 0,
                    coordinates: [0i32; MOST_COORDINATES],
                },
            },
        }
    }
}
