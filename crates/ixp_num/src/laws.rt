//! Laws of texts. The functions do nothing: each is called for what it ensures.
ghost use Rattle.std.specs.Prelude.{◌≡◌, ◌<◌, ◌^◌, ℕ, List, Result, Ok, decimal};
ghost use Rattle.std.specs.Net.Grammar.{IsColonHex};
ghost use Rattle.ixp_num.specs.Answers.{AddrAnswer, PrefixAnswer, PatternAnswer, AsnAnswer};
ghost use Rattle.ixp_num.specs.Printing.{groups_value, addr_text, prefix_text, bounds_text, pattern_text};
ghost use Rattle.ixp_num.specs.declared.addr.Addr.{Addr};
ghost use Rattle.ixp_num.specs.declared.asn.Asn.{Asn};
ghost use Rattle.ixp_num.specs.declared.prefix.Prefix.{Prefix};
ghost use Rattle.ixp_num.specs.declared.pattern.Pattern.{Pattern};
ghost use Rattle.ixp_num.specs.declared.family.Family.TheVariants.{V6};
ghost use Rattle.ixp_num.specs.declared.fault.NumFault.{NumFault};

/// No text has two answers: what the readers ensure says exactly when each answer comes.
pub fn one_answer()
    ensures addr { (t : List ℕ) (x y : Result Addr NumFault) → AddrAnswer t x → AddrAnswer t y → x ≡ y }
    ensures prefix { (t : List ℕ) (x y : Result Prefix NumFault) → PrefixAnswer t x → PrefixAnswer t y
        → x ≡ y }
    ensures pattern { (t : List ℕ) (x y : Result Pattern NumFault) → PatternAnswer t x → PatternAnswer t y
        → x ≡ y }
    ensures asn { (t : List ℕ) (x y : Result Asn NumFault) → AsnAnswer t x → AsnAnswer t y → x ≡ y }
{}

/// What is printed is read again, as the value that was printed.
pub fn printed_is_read()
    ensures addr { (a : Addr) → AddrAnswer (addr_text a) (Ok a) }
    ensures prefix { (p : Prefix) → PrefixAnswer (prefix_text p) (Ok p) }
    ensures pattern { (p : Pattern) → p.low < 2 ^ 8 → p.high < 2 ^ 8 → PatternAnswer (pattern_text p) (Ok p) }
    ensures bounds { (p : Pattern) → p.low < 2 ^ 8 → p.high < 2 ^ 8 → PatternAnswer (bounds_text p) (Ok p) }
    ensures asn { (n : ℕ) → n < 2 ^ 32 → AsnAnswer (decimal n) (Ok (record { 0 = n })) }
{}

/// Every text that writes eight groups by RFC 4291 section 2.2 is read as the address of these groups.
pub fn any_spelling()
    ensures { (t segments : List ℕ) (a : Addr) → IsColonHex t segments → a.family ≡ V6
        → a.value ≡ groups_value 0 segments → AddrAnswer t (Ok a) }
{}
