// What a token is, and the first of its bytes.

use crate::name::Name;

#[derive(Clone, Copy, PartialEq, Eq, Debug)]
pub enum Word {
    // keywords, in the order of their spelling: All Let Rec Top fold fun judge let rec top unfold
    All,
    LetType,
    Rec,
    Top,
    Fold,
    Fun,
    Judge,
    LetTerm,
    RecTerm,
    TopTerm,
    Unfold,
    // symbols: : <: -> = |-
    Colon,
    Below,
    Arrow,
    Equal,
    Turnstile,
    // delimiters: ( ) { } ;
    Open,
    Close,
    OpenBrace,
    CloseBrace,
    Semicolon,
    // a delimiter that no phrase has: ! , . ? [ ] _
    Unused,
    Name(Name),
    // the end of the source
    End,
}

#[derive(Clone, Copy, PartialEq, Eq, Debug)]
pub struct Token {
    pub word: Word,
    pub byte: u16,
}
