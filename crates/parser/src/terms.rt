// Terms: a base, and the applications behind it. They stand inside `depth` others; `types` and `terms` are the binders around.

ghost use Rattle.std.specs.Prelude.{◌≡◌, ℕ, ◌≤◌, ◌<◌, ◌+◌, length, IfOk};
ghost use Rattle.grammar.specs.Derives.{next_byte};
ghost use Rattle.grammar.specs.Notation.{term, term_base, fun_rest, args, argument};
ghost use Rattle.lexer.specs.Names.{number_of};
ghost use Rattle.parser.specs.Binders.{names};
ghost use Rattle.parser.specs.Parsing.{items, nodes, limits, Parsed, LaidTerm, LaidArgs, GivenArgument, GivenTerm};
ghost use Rattle.parser.specs.Rows.{ParsedRow, behind_fold, behind_rec};
ghost use Rattle.syntax.specs.Layout.{term_leaf};
ghost use Rattle.syntax.specs.Named.{fold_term, rec_term};

use crate::binders::Binders;
use crate::parser::{Parser, begin};
use grammar::SyntaxFault;
use lexer::{Name, Word};
use syntax::Node;

impl<'s, 't> Parser<'s, 't> {
    // Gives the number of the term's node.
    #[cycle(terms)]
    pub(crate) fn read_term(
        &mut self,
        depth: u8,
        types: &Binders<'_>,
        terms: &Binders<'_>,
    ) -> Result<usize, SyntaxFault>
        requires binders { length (names types.now) + length (names terms.now) ≤ depth }
        requires depth { depth ≤ 128 }
        ensures parsed { Parsed term depth (next_byte 0 (items self.old)) self.old self.new (LaidTerm (names types.now) (names terms.now) (nodes self.old) (nodes self.new)) result }
        ensures limits { limits self.new ≡ limits self.old }
        ensures shorter { IfOk result (λ _. length (items self.new) ≤ length (items self.old)) }
    {
        let first = self.look()?.byte;
        let function = self.term_base(depth, types, terms)?;
        self.args(first, function, depth, types, terms)
    }

    // The applications of the term whose node is function.
    #[cycle(terms)]
    fn args(
        &mut self,
        first: u16,
        mut function: usize,
        depth: u8,
        types: &Binders<'_>,
        terms: &Binders<'_>,
    ) -> Result<usize, SyntaxFault>
        requires binders { length (names types.now) + length (names terms.now) ≤ depth }
        requires depth { depth < 128 }
        ensures parsed { Parsed args depth first self.old self.new (LaidArgs (names types.now) (names terms.now) function (nodes self.old) (nodes self.new)) result }
        ensures limits { limits self.new ≡ limits self.old }
        ensures shorter { IfOk result (λ _. length (items self.new) ≤ length (items self.old)) }
    {
        loop {
            let token = self.look()?;
            if token.word != Word::Open {
                return Ok(function);
            }
            self.tokens.advance();
            let application = self.argument(token.byte, function, depth, types, terms)?;
            self.want(Word::Close)?;
            function = self.whole(first, application)?;
        }
    }

    // What stands behind the parenthesis of an application. Gives its node.
    #[cycle(terms)]
    fn argument(
        &mut self,
        byte: u16,
        function: usize,
        depth: u8,
        types: &Binders<'_>,
        terms: &Binders<'_>,
    ) -> Result<Node, SyntaxFault>
        requires binders { length (names types.now) + length (names terms.now) ≤ depth }
        requires depth { depth < 128 }
        ensures parsed { (q : ℕ) → Parsed argument depth q self.old self.new (GivenArgument (names types.now) (names terms.now) byte function (nodes self.old) (nodes self.new)) result }
        ensures limits { limits self.new ≡ limits self.old }
        ensures shorter { IfOk result (λ _. length (items self.new) ≤ length (items self.old)) }
    {
        if self.take(Word::Colon)? {
            let argument = self.read_type(depth + 1, types)?;
            Ok(Node::Appl2 {
                byte,
                function,
                argument,
            })
        } else {
            let argument = self.read_term(depth + 1, types, terms)?;
            Ok(Node::Appl {
                byte,
                function,
                argument,
            })
        }
    }

    #[cycle(terms)]
    fn term_base(
        &mut self,
        depth: u8,
        types: &Binders<'_>,
        terms: &Binders<'_>,
    ) -> Result<usize, SyntaxFault>
        requires binders { length (names types.now) + length (names terms.now) ≤ depth }
        requires depth { depth ≤ 128 }
        ensures parsed { Parsed term_base depth (next_byte 0 (items self.old)) self.old self.new (LaidTerm (names types.now) (names terms.now) (nodes self.old) (nodes self.new)) result }
        ensures depth { IfOk result (λ _. depth < 128) }
        ensures limits { limits self.new ≡ limits self.old }
        ensures shorter { IfOk result (λ _. length (items self.new) ≤ length (items self.old)) }
    {
        let token = self.look()?;
        match token.word {
            Word::TopTerm => {
                self.tokens.advance();
                begin(depth, token.byte)?;
                self.whole(token.byte, Node::TopTerm { byte: token.byte })
            }
            Word::Name(name) => {
                self.tokens.advance();
                begin(depth, token.byte)?;
                self.whole(token.byte, term_name(token.byte, name, terms))
            }
            Word::Fun => {
                self.tokens.advance();
                begin(depth, token.byte)?;
                self.want(Word::Open)?;
                let name = self.name()?;
                let node = self.fun_rest(token.byte, name, depth, types, terms)?;
                self.whole(token.byte, node)
            }
            Word::Fold => {
                self.tokens.advance();
                begin(depth, token.byte)?;
                self.fold(token.byte, depth, types, terms)
            }
            Word::Unfold => {
                self.tokens.advance();
                begin(depth, token.byte)?;
                self.want(Word::Open)?;
                let argument = self.read_term(depth + 1, types, terms)?;
                self.want(Word::Close)?;
                self.whole(
                    token.byte,
                    Node::Unfold {
                        byte: token.byte,
                        argument,
                    },
                )
            }
            Word::RecTerm => {
                self.tokens.advance();
                begin(depth, token.byte)?;
                self.rec_term(token.byte, depth, types, terms)
            }
            Word::OpenBrace => {
                self.tokens.advance();
                begin(depth, token.byte)?;
                let inner = self.read_term(depth + 1, types, terms)?;
                self.want(Word::CloseBrace)?;
                Ok(inner)
            }
            _ => Err(SyntaxFault::Unexpected(token.byte)),
        }
    }

    // What stands behind the name of fun. Gives the node of the term.
    #[cycle(terms)]
    fn fun_rest(
        &mut self,
        byte: u16,
        name: Name,
        depth: u8,
        types: &Binders<'_>,
        terms: &Binders<'_>,
    ) -> Result<Node, SyntaxFault>
        requires binders { length (names types.now) + length (names terms.now) ≤ depth }
        requires depth { depth < 128 }
        ensures parsed { (q : ℕ) → Parsed fun_rest depth q self.old self.new (λ v. GivenTerm (names types.now) (names terms.now) (nodes self.old) (nodes self.new) (v byte name)) result }
        ensures limits { limits self.new ≡ limits self.old }
        ensures shorter { IfOk result (λ _. length (items self.new) ≤ length (items self.old)) }
    {
        if self.take(Word::Colon)? {
            let domain = self.read_type(depth + 1, types)?;
            self.want(Word::Close)?;
            let body = self.read_term(depth + 1, types, &Binders::Inside(name, &*terms))?;
            Ok(Node::Fun { byte, domain, body })
        } else if self.take(Word::Below)? {
            let bound = self.read_type(depth + 1, types)?;
            self.want(Word::Close)?;
            let body = self.read_term(depth + 1, &Binders::Inside(name, &*types), terms)?;
            Ok(Node::Fun2 { byte, bound, body })
        } else {
            self.want(Word::Close)?;
            let first = self.tree.count();
            let body = self.read_term(depth + 1, &Binders::Inside(name, &*types), terms)?;
            Ok(Node::Fun2Unbounded { byte, first, body })
        }
    }

    // What stands behind fold. Gives the number of the term's node.
    #[cycle(terms)]
    fn fold(
        &mut self,
        byte: u16,
        depth: u8,
        types: &Binders<'_>,
        terms: &Binders<'_>,
    ) -> Result<usize, SyntaxFault>
        requires binders { length (names types.now) + length (names terms.now) ≤ depth }
        requires depth { depth < 128 }
        ensures parsed { ParsedRow term_base depth byte behind_fold (fold_term byte) self.old self.new (LaidTerm (names types.now) (names terms.now) (nodes self.old) (nodes self.new)) result }
        ensures limits { limits self.new ≡ limits self.old }
        ensures shorter { IfOk result (λ _. length (items self.new) ≤ length (items self.old)) }
    {
        self.want(Word::Open)?;
        self.want(Word::Colon)?;
        let to = self.read_type(depth + 1, types)?;
        self.want(Word::Close)?;
        self.want(Word::Open)?;
        let argument = self.read_term(depth + 1, types, terms)?;
        self.want(Word::Close)?;
        self.whole(byte, Node::Fold { byte, to, argument })
    }

    // What stands behind rec. Gives the number of the term's node.
    #[cycle(terms)]
    fn rec_term(
        &mut self,
        byte: u16,
        depth: u8,
        types: &Binders<'_>,
        terms: &Binders<'_>,
    ) -> Result<usize, SyntaxFault>
        requires binders { length (names types.now) + length (names terms.now) ≤ depth }
        requires depth { depth < 128 }
        ensures parsed { ParsedRow term_base depth byte behind_rec (rec_term byte) self.old self.new (LaidTerm (names types.now) (names terms.now) (nodes self.old) (nodes self.new)) result }
        ensures limits { limits self.new ≡ limits self.old }
        ensures shorter { IfOk result (λ _. length (items self.new) ≤ length (items self.old)) }
    {
        self.want(Word::Open)?;
        let name = self.name()?;
        self.want(Word::Colon)?;
        let domain = self.read_type(depth + 1, types)?;
        self.want(Word::Close)?;
        let body = self.read_term(depth + 1, types, &Binders::Inside(name, &*terms))?;
        self.whole(byte, Node::RecTerm { byte, domain, body })
    }
}

// The node of a term's name.
fn term_name(byte: u16, name: Name, terms: &Binders<'_>) -> Node
    requires { length (names terms.now) ≤ 128 }
    ensures { result ≡ term_leaf (number_of (names terms.now) name) byte name (length (names terms.now)) }
{
    match terms.number_of(name) {
        Some(number) => Node::TermVar { byte, number },
        None => Node::TermName {
            byte,
            name,
            inside: terms.count(),
        },
    }
}
