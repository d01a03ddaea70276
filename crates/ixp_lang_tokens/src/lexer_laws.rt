//! Laws of tokens. The functions do nothing: each is called for what it ensures.
ghost use Rattle.std.specs.Prelude.{◌≡◌, ◌≤◌, ◌++◌, ◌∷◌, true, false, List, ℕ, Ok, length};
ghost use Rattle.std.specs.List.{list_all};
ghost use Rattle.ixp_num.specs.Answers.{AddrAnswer, PrefixAnswer, AsnAnswer};
ghost use Rattle.ixp_num.specs.declared.addr.Addr.{Addr};
ghost use Rattle.ixp_num.specs.declared.asn.Asn.{Asn};
ghost use Rattle.ixp_num.specs.declared.prefix.Prefix.{Prefix};
ghost use Rattle.ixp_lang_tokens.specs.Bytes.{
  begins_with,
  is_digit,
  is_letter,
  is_word_byte,
  is_address_byte,
  is_text_byte,
};
ghost use Rattle.ixp_lang_tokens.specs.Pieces.{same_mark};
ghost use Rattle.ixp_lang_tokens.specs.Tokens.{mark_text, AreDigits, word_kind, Stands, Placed, Tokens};
ghost use Rattle.ixp_lang_tokens.specs.Written.{FewColons, NoOctet, NoLength, joins};
ghost use Rattle.ixp_lang_tokens.specs.declared.token.Kind.TheVariants as Kind;
ghost use Rattle.ixp_lang_tokens.specs.declared.token.Mark.{Mark};
ghost use Rattle.ixp_lang_tokens.specs.declared.token.Mark.TheVariants.{Colon};

/// A text has one list of tokens: what [`crate::tokens_of`] ensures says exactly which one it gives.
pub fn one_list()
    ensures { (text : List ℕ) (one other : List Placed) → Tokens text one → Tokens text other → one ≡ other }
{}

/// A token that is written stands at the front of its text, where what is behind it doesn't go on with it.
pub fn written_tokens()
    ensures word { (word rest : List ℕ) → begins_with is_letter word ≡ true
        → list_all is_word_byte word ≡ true → begins_with is_word_byte rest ≡ false → FewColons rest
        → Stands (word_kind word) (word ++ rest) rest }
    ensures number { (digits rest : List ℕ) (n : Asn) → AreDigits digits → AsnAnswer digits (Ok n)
        → begins_with is_digit rest ≡ false → NoOctet rest → FewColons rest
        → Stands (Kind.Number n.0) (digits ++ rest) rest }
    ensures address { (text rest : List ℕ) (a : Addr) → AddrAnswer text (Ok a)
        → begins_with is_address_byte rest ≡ false → NoLength rest
        → Stands (Kind.Addr a) (text ++ rest) rest }
    ensures prefix { (text rest : List ℕ) (p : Prefix) → PrefixAnswer text (Ok p)
        → begins_with is_digit rest ≡ false → Stands (Kind.Prefix p) (text ++ rest) rest }
    ensures text { (said rest : List ℕ) → list_all is_text_byte said ≡ true → length said ≤ 64
        → Stands (Kind.Text said) (34 ∷ (said ++ (34 ∷ rest))) rest }
    ensures mark { (m : Mark) (rest : List ℕ) → same_mark m Colon ≡ false → joins m rest ≡ false
        → Stands (Kind.Mark m) (mark_text m ++ rest) rest }
    ensures colon { (rest : List ℕ) → FewColons (58 ∷ rest) → Stands (Kind.Mark Colon) (58 ∷ rest) rest }
{}
