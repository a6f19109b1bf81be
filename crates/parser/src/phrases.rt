// Phrases, and the bindings of the judge phrases.

ghost use Rattle.std.specs.Prelude.{◌≡◌, ℕ, ◌≤◌, [], length, IfOk};
ghost use Rattle.grammar.specs.Derives.{next_byte};
ghost use Rattle.grammar.specs.Notation.{let_type_rest, let_term_rest, judged, env, binding_rest, type, term};
ghost use Rattle.parser.specs.Rows.{ParsedBody};
ghost use Rattle.parser.specs.Parsing.{items, nodes, limits, Parsed, ParsedPhrase, LaidType, LaidTerm, LaidEnv, GivenBinding, LaidPhrase};

use crate::binders::Binders;
use crate::judgment::Judgment;
use crate::parser::Parser;
use grammar::SyntaxFault;
use lexer::{Name, Word};
use syntax::{Node, Phrase};

impl<'s, 't> Parser<'s, 't> {
    pub(crate) fn phrase(&mut self) -> Result<Phrase, SyntaxFault>
        ensures parsed { ParsedPhrase self.old self.new result }
        ensures limits { limits self.new ≡ limits self.old }
    {
        let phrase = self.body()?;
        self.want(Word::Semicolon)?;
        self.end()?;
        Ok(phrase)
    }

    // All of a phrase but its semicolon and the end.
    fn body(&mut self) -> Result<Phrase, SyntaxFault>
        ensures parsed { ParsedBody self.old self.new result }
        ensures limits { limits self.new ≡ limits self.old }
    {
        match self.look()?.word {
            Word::LetType => {
                self.tokens.advance();
                let name = self.name()?;
                self.let_type_rest(name)
            }
            Word::LetTerm => {
                self.tokens.advance();
                let name = self.name()?;
                self.let_term_rest(name)
            }
            Word::Colon => {
                self.tokens.advance();
                let node = self.closed_type()?;
                Ok(Phrase::TypePhrase { node })
            }
            Word::Judge => {
                self.tokens.advance();
                self.judged()
            }
            _ => {
                let node = self.closed_term()?;
                Ok(Phrase::TermPhrase { node })
            }
        }
    }

    // Behind the name of Let.
    fn let_type_rest(&mut self, name: Name) -> Result<Phrase, SyntaxFault>
        ensures parsed { (q : ℕ) → Parsed let_type_rest 0 q self.old self.new (λ v. LaidPhrase (nodes self.old) (nodes self.new) (v name)) result }
        ensures limits { limits self.new ≡ limits self.old }
    {
        if self.take(Word::Below)? {
            let bound = self.closed_type()?;
            self.want(Word::Equal)?;
            let to = self.closed_type()?;
            Ok(Phrase::LetType { name, bound, to })
        } else {
            self.want(Word::Equal)?;
            let to = self.closed_type()?;
            Ok(Phrase::LetTypeUnbounded { name, to })
        }
    }

    // Behind the name of let.
    fn let_term_rest(&mut self, name: Name) -> Result<Phrase, SyntaxFault>
        ensures parsed { (q : ℕ) → Parsed let_term_rest 0 q self.old self.new (λ v. LaidPhrase (nodes self.old) (nodes self.new) (v name)) result }
        ensures limits { limits self.new ≡ limits self.old }
    {
        if self.take(Word::Colon)? {
            let stated = self.closed_type()?;
            self.want(Word::Equal)?;
            let term = self.closed_term()?;
            Ok(Phrase::LetTerm { name, stated, term })
        } else {
            self.want(Word::Equal)?;
            let term = self.closed_term()?;
            Ok(Phrase::LetTermUntyped { name, term })
        }
    }

    // Behind judge.
    fn judged(&mut self) -> Result<Phrase, SyntaxFault>
        ensures parsed { (q : ℕ) → Parsed judged 0 q self.old self.new (LaidPhrase (nodes self.old) (nodes self.new)) result }
        ensures limits { limits self.new ≡ limits self.old }
    {
        let token = self.look()?;
        let Word::Name(name) = token.word else {
            return Err(SyntaxFault::Unexpected(token.byte));
        };
        match Judgment::named(name) {
            Some(Judgment::IsEnv) => {
                self.tokens.advance();
                self.env()?;
                Ok(Phrase::JudgeEnv)
            }
            Some(Judgment::IsType) => {
                self.tokens.advance();
                self.env()?;
                self.want(Word::Turnstile)?;
                let node = self.closed_type()?;
                Ok(Phrase::JudgeType { node })
            }
            Some(Judgment::IsSubtype) => {
                self.tokens.advance();
                self.env()?;
                self.want(Word::Turnstile)?;
                let left = self.closed_type()?;
                self.want(Word::Below)?;
                let right = self.closed_type()?;
                Ok(Phrase::JudgeSubtype { left, right })
            }
            Some(Judgment::HasType) => {
                self.tokens.advance();
                self.env()?;
                self.want(Word::Turnstile)?;
                let term = self.closed_term()?;
                self.want(Word::Colon)?;
                let stated = self.closed_type()?;
                Ok(Phrase::JudgeTerm { term, stated })
            }
            None => Err(SyntaxFault::Unexpected(token.byte)),
        }
    }

    // The bindings that stand next. Their nodes are laid.
    fn env(&mut self) -> Result<(), SyntaxFault>
        ensures parsed { Parsed env 0 (next_byte 0 (items self.old)) self.old self.new (λ v _. LaidEnv (nodes self.old) (nodes self.new) v) result }
        ensures limits { limits self.new ≡ limits self.old }
        ensures shorter { IfOk result (λ _. length (items self.new) ≤ length (items self.old)) }
    {
        loop {
            let token = self.look()?;
            let Word::Name(name) = token.word else {
                return Ok(());
            };
            self.tokens.advance();
            let binding = self.binding_rest(name)?;
            self.whole(token.byte, binding)?;
        }
    }

    // Behind the name of a binding. Gives its node.
    fn binding_rest(&mut self, name: Name) -> Result<Node, SyntaxFault>
        ensures parsed { (q : ℕ) → Parsed binding_rest 0 q self.old self.new (λ v. GivenBinding (nodes self.old) (nodes self.new) (v name)) result }
        ensures limits { limits self.new ≡ limits self.old }
        ensures shorter { IfOk result (λ _. length (items self.new) ≤ length (items self.old)) }
    {
        if self.take(Word::Below)? {
            let bound = self.closed_type()?;
            Ok(Node::TypeBinding { name, bound })
        } else {
            self.want(Word::Colon)?;
            let domain = self.closed_type()?;
            Ok(Node::TermBinding { name, domain })
        }
    }

    // A type inside no other and with no binders around.
    fn closed_type(&mut self) -> Result<usize, SyntaxFault>
        ensures parsed { Parsed type 0 (next_byte 0 (items self.old)) self.old self.new (LaidType [] (nodes self.old) (nodes self.new)) result }
        ensures limits { limits self.new ≡ limits self.old }
        ensures shorter { IfOk result (λ _. length (items self.new) ≤ length (items self.old)) }
    {
        self.read_type(0, &Binders::Outermost)
    }

    fn closed_term(&mut self) -> Result<usize, SyntaxFault>
        ensures parsed { Parsed term 0 (next_byte 0 (items self.old)) self.old self.new (LaidTerm [] [] (nodes self.old) (nodes self.new)) result }
        ensures limits { limits self.new ≡ limits self.old }
        ensures shorter { IfOk result (λ _. length (items self.new) ≤ length (items self.old)) }
    {
        self.read_term(0, &Binders::Outermost, &Binders::Outermost)
    }
}
