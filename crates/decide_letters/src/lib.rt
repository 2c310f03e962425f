// What letters and a security's entry say by themselves (document 01, Price and conditions): which trades qualify for high,
// low and last, which network has a letter, whether a security is entered and shows its temporary suffix.
#![tactic(auto)]

ghost use Rattle.std.specs.Prelude.{◌≡◌};
ghost use Rattle.rules.specs.Conditions.{has_rule, on_network};
ghost use Rattle.rules.specs.Qualifying.{for_neither, for_range_only, for_range, for_last};
ghost use Rattle.rules.specs.Correction.{repeats_name};
ghost use Rattle.rules.specs.Day.{is_entered, shows_temporary};

use rules::{Letters, Security};

// ---- letters (Price and conditions)

// Any of C N R B.
#[tactic(auto, unfolding(rules::specs::Qualifying::for_neither))]
fn for_neither(x: Letters) -> bool
    ensures { result ≡ for_neither x }
{
    x.c || x.n || x.r || x.b
}

// Any of O S L.
#[tactic(auto, unfolding(rules::specs::Qualifying::for_range_only))]
fn for_range_only(x: Letters) -> bool
    ensures { result ≡ for_range_only x }
{
    x.o || x.s || x.l
}

// The trade qualifies for high and low.
#[tactic(auto, unfolding(rules::specs::Qualifying::for_range))]
pub fn for_range(x: Letters) -> bool
    ensures { result ≡ for_range x }
{
    !for_neither(x)
}

// The trade qualifies for last.
#[tactic(auto, unfolding(rules::specs::Qualifying::for_last, rules::specs::Qualifying::for_range))]
pub fn for_last(x: Letters) -> bool
    ensures { result ≡ for_last x }
{
    for_range(x) && !for_range_only(x)
}

// J or G.
#[tactic(auto, unfolding(rules::specs::Conditions::has_rule))]
pub fn has_rule(x: Letters) -> bool
    ensures { result ≡ has_rule x }
{
    x.j || x.g
}

// Any of S L O C K N M B: the name repeats after WAS. (Corrections and cancels).
#[tactic(auto, unfolding(rules::specs::Correction::repeats_name))]
pub fn repeats_name(x: Letters) -> bool
    ensures { result ≡ repeats_name x }
{
    x.s || x.l || x.o || x.c || x.k || x.n || x.m || x.b
}

// J on network A only, G on B only.
#[tactic(auto, unfolding(rules::specs::Conditions::on_network))]
pub fn on_network(network: u64, x: Letters) -> bool
    ensures { result ≡ on_network network x }
{
    (!x.j || network == u64::from(b'A')) && (!x.g || network == u64::from(b'B'))
}

// ---- a security

#[tactic(auto, unfolding(rules::specs::Day::is_entered))]
pub fn is_entered(s: Security) -> bool
    ensures { result ≡ is_entered s }
{
    s.issue.unit != 0
}

// The temporary suffix, on the first five trades of the security's day.
#[tactic(auto, unfolding(rules::specs::Day::shows_temporary))]
pub fn shows_temporary(s: Security) -> bool
    ensures { result ≡ shows_temporary s }
{
    s.counts.trades < 5
}
