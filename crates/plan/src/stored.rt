// Stored plans, read from bytes (document 01, "Plans").
ghost use Rattle.std.specs.Prelude.{◌≡◌, ◌+◌, ◌*◌, ◌≤◌, ◌<◌, ◌^◌, length};
ghost use Rattle.orders.specs.Codes.{count_of, width_of};
ghost use Rattle.plan.specs.Stored.{byte_at, pair_at, reach, value_at, fields_at, fault_at, header_fault, orders_from, most_orders, plan_of, plan_number, plan_place};
ghost use Rattle.plan.specs.Judged.{fault_number, refusal_number, checked_number, checked_at, checked_header, judged_of, judged_number, judged_place};

use orders::codes::{count_of, is_known, length_of, width_of};
use orders::order::Order;

// The version of the stored form.
pub const VERSION: u8 = 1;

// The bytes before the first order: the version and two of the length.
pub const HEADER: usize = 3;

pub const MOST_ORDERS: usize = 64;

// What is wrong with a plan, in the order of document 01's refusal table.
#[derive(Clone, Copy, Debug, PartialEq, Eq)]
pub enum Fault {
    TooShort,
    OtherVersion,
    PlanLength,
    OrderLength,
    UnknownCode,
    CodeLength,
    FieldRange,
    TooMany,
}

impl Fault {
    // Its number in that table.
    pub fn number(self) -> u8
        ensures { result ≡ fault_number self }
    {
        match self {
            Fault::TooShort => 2,
            Fault::OtherVersion => 3,
            Fault::PlanLength => 4,
            Fault::OrderLength => 5,
            Fault::UnknownCode => 6,
            Fault::CodeLength => 7,
            Fault::FieldRange => 8,
            Fault::TooMany => 9,
        }
    }
}

// Why a plan is refused, and the byte place.
#[derive(Clone, Copy, Debug, PartialEq, Eq)]
pub struct Refusal {
    pub fault: Fault,
    pub place: usize,
}

impl Refusal {
    // The fault's number.
    pub fn number(self) -> u8
        ensures { result ≡ refusal_number self }
    {
        self.fault.number()
    }
}

// The byte at a place; 0 past the end.
pub fn byte_at(plan: &[u8], i: usize) -> u8
    ensures { result ≡ byte_at plan.now i }
{
    plan.get(i).copied().unwrap_or(0)
}

// Two bytes from a place on, the first the higher.
fn pair_at(plan: &[u8], i: usize) -> u16
    requires { i + 1 < 2 ^ 64 }
    ensures { result ≡ pair_at plan.now i }
{
    u16::from_be_bytes([byte_at(plan, i), byte_at(plan, i + 1)])
}

// A byte that is there.
fn byte(plan: &[u8], i: usize) -> u8
    requires { i < length plan.now }
    ensures { result ≡ byte_at plan.now i }
{
    plan[i]
}

// The ith value from a place on, of two bytes or one.
fn value_at(plan: &[u8], at: usize, wide: bool, i: usize) -> u16
    requires { at + reach wide i ≤ length plan.now }
    ensures { result ≡ value_at plan.now at wide i }
{
    if wide {
        let place = at + 2 * i;
        return u16::from_be_bytes([byte(plan, place), byte(plan, place + 1)]);
    }
    byte(plan, at + i) as u16
}

// An order whose fields, from a place on, are all there.
fn fields_at(plan: &[u8], at: usize, code: u8) -> Order
    requires { at + width_of code * count_of code ≤ length plan.now }
    ensures { result ≡ fields_at plan.now at code }
{
    let wide = width_of(code) == 2;
    let count = count_of(code);
    let mut order = Order {
        code,
        a: 0,
        b: 0,
        c: 0,
        d: 0,
    };
    if count == 0 {
        return order;
    }
    order.a = value_at(plan, at, wide, 0);
    if count == 1 {
        return order;
    }
    order.b = value_at(plan, at, wide, 1);
    if count == 2 {
        return order;
    }
    order.c = value_at(plan, at, wide, 2);
    if count == 3 {
        return order;
    }
    order.d = value_at(plan, at, wide, 3);
    order
}

// The order at a place, read and judged.
pub fn checked_at(plan: &[u8], at: usize) -> Result<Order, Fault>
    ensures value { result ≡ checked_at plan.now at }
    ensures number { checked_number result ≡ fault_at plan.now at }
{
    if plan.len() <= at {
        return Err(Fault::OrderLength);
    }
    let size = byte(plan, at) as usize;
    if size == 0 {
        return Err(Fault::OrderLength);
    }
    if plan.len() < at + 1 + size {
        return Err(Fault::OrderLength);
    }
    let code = byte(plan, at + 1);
    let known = is_known(code);
    let length = length_of(code);
    if !known {
        return Err(Fault::UnknownCode);
    }
    if size != length {
        return Err(Fault::CodeLength);
    }
    let order = fields_at(plan, at + 2, code);
    if order.fields_fit() {
        Ok(order)
    } else {
        Err(Fault::FieldRange)
    }
}

// The orders, from the first on.
fn judge_orders(plan: &[u8]) -> Result<usize, Refusal>
    ensures { result ≡ judged_of (orders_from most_orders plan.now 3) }
{
    let mut at: usize = HEADER;
    let mut count: usize = 0;
    // The place advances by each order's own length, so it is no index of a `for`.
    while at < plan.len() {
        let checked = checked_at(plan, at);
        // Where the bytes that the length byte counts begin.
        let counted = at + 1;
        if MOST_ORDERS <= count {
            return Err(Refusal {
                fault: Fault::TooMany,
                place: at,
            });
        }
        if let Err(fault) = checked {
            return Err(Refusal { fault, place: at });
        }
        at = counted + byte_at(plan, at) as usize;
        count += 1;
    }
    Ok(count)
}

// What is wrong with a plan before its orders.
pub fn header_fault(plan: &[u8]) -> Result<(), Fault>
    ensures value { result ≡ checked_header plan.now }
    ensures number { checked_number result ≡ header_fault plan.now }
{
    if plan.len() < HEADER {
        return Err(Fault::TooShort);
    }
    if plan[0] != VERSION {
        return Err(Fault::OtherVersion);
    }
    if plan.len() != HEADER + pair_at(plan, 1) as usize {
        return Err(Fault::PlanLength);
    }
    Ok(())
}

// Whether a plan is accepted: the number of its orders, or why not.
pub fn judge(plan: &[u8]) -> Result<usize, Refusal>
    ensures value { result ≡ judged_of (plan_of plan.now) }
    ensures result_value { judged_number result ≡ plan_number (plan_of plan.now) }
    ensures result_value_2 { judged_place result ≡ plan_place (plan_of plan.now) }
{
    if let Err(fault) = header_fault(plan) {
        return Err(Refusal { fault, place: 0 });
    }
    judge_orders(plan)
}
