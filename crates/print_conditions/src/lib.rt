// The conditions of a side as texts (document 01, "Price and conditions"): after the name and after the price; the length
// of each and its writer, which is lent the rest of the tape. Those at the end: crate `ending`.
#![tactic(auto)]

ghost use Rattle.std.specs.Prelude.{◌≡◌, ◌≤◌, ◌||◌, length};
ghost use Rattle.text.specs.Bytes.{bytes};
ghost use Rattle.text.specs.Pick.{opt};
ghost use Rattle.text.specs.Put.{Written};
ghost use Rattle.rules.specs.Conditions.{after_name, after_price};

use rules::Letters;

// .ND for N or M.
fn is_next_day(x: Letters) -> bool
    ensures { result ≡ (x.n || x.m) }
{
    x.n || x.m
}

// `,c` for C or K.
fn is_cash(x: Letters) -> bool
    ensures { result ≡ (x.c || x.k) }
{
    x.c || x.k
}

fn write_next_day(rest: &mut [u8], x: Letters) -> usize
    requires { length (opt (x.n || x.m) (bytes ".ND")) ≤ length rest.old }
    ensures { Written (opt (x.n || x.m) (bytes ".ND")) rest.old rest.new result }
{
    text::write_optional(rest, is_next_day(x), b".ND")
}

fn write_cash(rest: &mut [u8], x: Letters) -> usize
    requires { length (opt (x.c || x.k) (bytes ",c")) ≤ length rest.old }
    ensures { Written (opt (x.c || x.k) (bytes ",c")) rest.old rest.new result }
{
    text::write_optional(rest, is_cash(x), b",c")
}

fn next_day_length(x: Letters) -> usize
    ensures { (result ≡ length (opt (x.n || x.m) (bytes ".ND"))) × (result ≤ 3) }
{
    text::optional_length(is_next_day(x), b".ND")
}

fn cash_length(x: Letters) -> usize
    ensures { (result ≡ length (opt (x.c || x.k) (bytes ",c"))) × (result ≤ 2) }
{
    text::optional_length(is_cash(x), b",c")
}

// What stands after the name.
pub fn after_name_length(x: Letters) -> usize
    ensures { (result ≡ length (after_name x)) × (result ≤ 20) }
{
    next_day_length(x)
        + text::optional_length(x.o, b".OPD")
        + text::optional_length(x.s, b".SLD")
        + text::optional_length(x.l, b".SLD.LAST")
}

pub fn write_after_name(rest: &mut [u8], x: Letters) -> usize
    requires { length (after_name x) ≤ length rest.old }
    ensures { Written (after_name x) rest.old rest.new result }
{
    let at = write_next_day(rest, x);
    let at2 = at + text::write_optional(&mut rest[at..], x.o, b".OPD");
    let at3 = at2 + text::write_optional(&mut rest[at2..], x.s, b".SLD");
    at3 + text::write_optional(&mut rest[at3..], x.l, b".SLD.LAST")
}

// What stands after the price.
pub fn after_price_length(x: Letters) -> usize
    ensures { (result ≡ length (after_price x)) × (result ≤ 5) }
{
    cash_length(x) + text::optional_length(x.b, b",b") + text::optional_length(x.t, b"t")
}

pub fn write_after_price(rest: &mut [u8], x: Letters) -> usize
    requires { length (after_price x) ≤ length rest.old }
    ensures { Written (after_price x) rest.old rest.new result }
{
    let at = write_cash(rest, x);
    let at2 = at + text::write_optional(&mut rest[at..], x.b, b",b");
    at2 + text::write_optional(&mut rest[at2..], x.t, b"t")
}
