// The steps that all of reading is made of: a token is looked at, used or wanted; a type or term begins; a thing is whole.

ghost use Rattle.std.specs.Prelude.{◌≡◌, ◌<◌, ◌≤◌, ◌+◌, suc, false, IfOk, MatchResult, ◌++◌, ◌∷◌, [], length};
ghost use Rattle.lexer.specs.Items.{ends};
ghost use Rattle.lexer.specs.declared.token.Word.TheVariants.{End};
ghost use Rattle.grammar.specs.Notation.{the, a_name};
ghost use Rattle.grammar.specs.declared.fault.SyntaxFault.TheVariants.{TooDeep, TreeFull};
ghost use Rattle.parser.specs.Parsing.{items, nodes, placed, limits, Looked, TakesWord, Uses, Refuses, Ended};

use grammar::SyntaxFault;
use lexer::{Name, Token, Tokens, Word};
use syntax::Node;
use tables::Table;

#[derive(Drop)]
pub(crate) struct Parser<'s, 't> {
    pub(crate) tokens: Tokens<'s>,
    pub(crate) tree: Table<'t, Node>,
}

impl<'s, 't> Parser<'s, 't> {
    pub(crate) fn look(&self) -> Result<Token, SyntaxFault>
        ensures { Looked (items self.now) result }
    {
        Ok(self.tokens.look()?)
    }

    // Uses the next token if it is this one, which is not the end.
    pub(crate) fn take(&mut self, word: Word) -> Result<bool, SyntaxFault>
        requires { ends word ≡ false }
        ensures used { TakesWord word (items self.old) (items self.new) result }
        ensures tree { self.new.tree ≡ self.old.tree }
    {
        let stands = self.look()?.word == word;
        if stands {
            self.tokens.advance();
        }
        Ok(stands)
    }

    // Uses the next token, which is to be this one, and not the end.
    pub(crate) fn want(&mut self, word: Word) -> Result<(), SyntaxFault>
        requires { ends word ≡ false }
        ensures used { MatchResult result (λ _. Uses (the word) tt (items self.old) (items self.new)) (λ e. Refuses (the word) (items self.old) e) }
        ensures tree { self.new.tree ≡ self.old.tree }
    {
        let token = self.look()?;
        if token.word != word {
            return Err(SyntaxFault::Unexpected(token.byte));
        }
        self.tokens.advance();
        Ok(())
    }

    pub(crate) fn name(&mut self) -> Result<Name, SyntaxFault>
        ensures used { MatchResult result (λ w. Uses a_name w (items self.old) (items self.new)) (λ e. Refuses a_name (items self.old) e) }
        ensures tree { self.new.tree ≡ self.old.tree }
    {
        let token = self.look()?;
        let Word::Name(name) = token.word else {
            return Err(SyntaxFault::Unexpected(token.byte));
        };
        self.tokens.advance();
        Ok(name)
    }

    // The source is to end here.
    pub(crate) fn end(&self) -> Result<(), SyntaxFault>
        ensures { MatchResult result (λ _. Ended (items self.now)) (λ e. Refuses (the End) (items self.now) e) }
    {
        let token = self.look()?;
        if token.word != Word::End {
            return Err(SyntaxFault::Unexpected(token.byte));
        }
        Ok(())
    }

    // A thing is whole and takes the next place. Gives its number.
    pub(crate) fn whole(&mut self, first: u16, node: Node) -> Result<usize, SyntaxFault>
        ensures laid { MatchResult result (λ n. (n ≡ placed self.old) × (n < (limits self.old).places) × (nodes self.new ≡ nodes self.old ++ node ∷ [])) (λ e. ((limits self.old).places ≤ placed self.old) × (e ≡ TreeFull first)) }
        ensures tokens { self.new.tokens ≡ self.old.tokens }
        ensures limits { limits self.new ≡ limits self.old }
    {
        let place = self.tree.count();
        self.tree
            .push(node)
            .map_err(|_| SyntaxFault::TreeFull(first))?;
        Ok(place)
    }
}

// A type or term begins, inside so many others.
pub(crate) fn begin(depth: u8, first: u16) -> Result<(), SyntaxFault>
    ensures { MatchResult result (λ _. depth < 128) (λ e. (128 ≤ depth) × (e ≡ TooDeep first)) }
{
    if depth >= 128 {
        return Err(SyntaxFault::TooDeep(first));
    }
    Ok(())
}
