// Lexemes: the longest run of letters and digits that begins with a letter, the longest run of specials, or one delimiter.

ghost use Rattle.std.specs.Prelude.{◌≡◌, ◌∷◌, [], length};
ghost use Rattle.lexer.specs.Classes.{in_word, in_symbol};
ghost use Rattle.lexer.specs.Reading.{word_at, keyword_or_name, run, Gives};
ghost use Rattle.lexer.specs.Words.{keyword, symbol, delimiter};

use crate::class::Class;
use crate::fault::LexicalFault;
use crate::name::Name;
use crate::token::Word;

// The word that these bytes begin with, and what is behind it. `byte` is the number of the first.
pub(crate) fn read_lexeme(byte: u16, bytes: &[u8]) -> Result<(Word, &[u8]), LexicalFault>
    ensures { Gives (word_at byte bytes.now) result }
{
    let Some((&first, behind)) = bytes.split_first() else {
        return Ok((Word::End, bytes));
    };
    match Class::of(first) {
        Class::Letter => {
            let (run, rest) = bytes.split_at(word_length(bytes));
            let word = keyword_or_name(run).ok_or(LexicalFault::LongName(byte))?;
            Ok((word, rest))
        }
        Class::Special => {
            let (run, rest) = bytes.split_at(symbol_length(bytes));
            let word = symbol(run).ok_or(LexicalFault::NoToken(byte))?;
            Ok((word, rest))
        }
        Class::Delimiter => Ok((delimiter(first), behind)),
        _ => Err(LexicalFault::NoToken(byte)),
    }
}

// How long the run of letters and digits is that these bytes begin with.
fn word_length(bytes: &[u8]) -> usize
    ensures { result ≡ length (run in_word bytes.now) }
{
    bytes
        .iter()
        .take_while(|&&b| matches!(Class::of(b), Class::Letter | Class::Digit))
        .count()
}

// How long the run of specials is.
fn symbol_length(bytes: &[u8]) -> usize
    ensures { result ≡ length (run in_symbol bytes.now) }
{
    bytes
        .iter()
        .take_while(|&&b| Class::of(b) == Class::Special)
        .count()
}

fn keyword_or_name(run: &[u8]) -> Option<Word>
    ensures { result ≡ keyword_or_name run.now }
{
    keyword(run).or_else(|| Name::new(run).map(Word::Name))
}

#[tactic(auto, unfolding(crate::specs::Words::keyword))]
fn keyword(run: &[u8]) -> Option<Word>
    ensures { result ≡ keyword run.now }
{
    match run {
        b"All" => Some(Word::All),
        b"Let" => Some(Word::LetType),
        b"Rec" => Some(Word::Rec),
        b"Top" => Some(Word::Top),
        b"fold" => Some(Word::Fold),
        b"fun" => Some(Word::Fun),
        b"judge" => Some(Word::Judge),
        b"let" => Some(Word::LetTerm),
        b"rec" => Some(Word::RecTerm),
        b"top" => Some(Word::TopTerm),
        b"unfold" => Some(Word::Unfold),
        _ => None,
    }
}

#[tactic(auto, unfolding(crate::specs::Words::symbol))]
fn symbol(run: &[u8]) -> Option<Word>
    ensures { result ≡ symbol run.now }
{
    match run {
        b":" => Some(Word::Colon),
        b"<:" => Some(Word::Below),
        b"->" => Some(Word::Arrow),
        b"=" => Some(Word::Equal),
        b"|-" => Some(Word::Turnstile),
        _ => None,
    }
}

#[tactic(auto, unfolding(crate::specs::Words::delimiter))]
fn delimiter(b: u8) -> Word
    ensures { result ≡ delimiter (b ∷ []) }
{
    match b {
        b'(' => Word::Open,
        b')' => Word::Close,
        b'{' => Word::OpenBrace,
        b'}' => Word::CloseBrace,
        b';' => Word::Semicolon,
        _ => Word::Unused,
    }
}
