// Types: a base, and what an arrow adds to it. They stand inside `depth` others; `types` are the binders of types around.

ghost use Rattle.std.specs.Prelude.{◌≡◌, ℕ, ◌≤◌, ◌<◌, length, IfOk};
ghost use Rattle.grammar.specs.Derives.{next_byte};
ghost use Rattle.grammar.specs.Notation.{type, type_base, all_rest, arrow_rest};
ghost use Rattle.lexer.specs.Names.{number_of};
ghost use Rattle.parser.specs.Binders.{names};
ghost use Rattle.parser.specs.Parsing.{items, nodes, limits, Parsed, LaidType, LaidArrow, GivenType};
ghost use Rattle.syntax.specs.Layout.{type_leaf};

use crate::binders::Binders;
use crate::parser::{Parser, begin};
use grammar::SyntaxFault;
use lexer::{Name, Word};
use syntax::Node;

impl<'s, 't> Parser<'s, 't> {
    // Gives the number of the type's node.
    #[cycle(types)]
    pub(crate) fn read_type(&mut self, depth: u8, types: &Binders<'_>) -> Result<usize, SyntaxFault>
        requires binders { length (names types.now) ≤ depth }
        requires depth { depth ≤ 128 }
        ensures parsed { Parsed type depth (next_byte 0 (items self.old)) self.old self.new (LaidType (names types.now) (nodes self.old) (nodes self.new)) result }
        ensures limits { limits self.new ≡ limits self.old }
        ensures shorter { IfOk result (λ _. length (items self.new) ≤ length (items self.old)) }
    {
        let first = self.look()?.byte;
        let left = self.type_base(depth, types)?;
        self.arrow_rest(first, left, depth, types)
    }

    // What stands behind the type whose node is left.
    #[cycle(types)]
    fn arrow_rest(
        &mut self,
        first: u16,
        left: usize,
        depth: u8,
        types: &Binders<'_>,
    ) -> Result<usize, SyntaxFault>
        requires binders { length (names types.now) ≤ depth }
        requires depth { depth < 128 }
        ensures parsed { Parsed arrow_rest depth first self.old self.new (LaidArrow (names types.now) left (nodes self.old) (nodes self.new)) result }
        ensures limits { limits self.new ≡ limits self.old }
        ensures shorter { IfOk result (λ _. length (items self.new) ≤ length (items self.old)) }
    {
        if !self.take(Word::Arrow)? {
            return Ok(left);
        }
        let right = self.read_type(depth + 1, types)?;
        self.whole(first, Node::Arrow { left, right })
    }

    #[cycle(types)]
    fn type_base(&mut self, depth: u8, types: &Binders<'_>) -> Result<usize, SyntaxFault>
        requires binders { length (names types.now) ≤ depth }
        requires depth { depth ≤ 128 }
        ensures parsed { Parsed type_base depth (next_byte 0 (items self.old)) self.old self.new (LaidType (names types.now) (nodes self.old) (nodes self.new)) result }
        ensures depth { IfOk result (λ _. depth < 128) }
        ensures limits { limits self.new ≡ limits self.old }
        ensures shorter { IfOk result (λ _. length (items self.new) ≤ length (items self.old)) }
    {
        let token = self.look()?;
        match token.word {
            Word::Top => {
                self.tokens.advance();
                begin(depth, token.byte)?;
                self.whole(token.byte, Node::Top)
            }
            Word::Name(name) => {
                self.tokens.advance();
                begin(depth, token.byte)?;
                self.whole(token.byte, type_name(token.byte, name, types))
            }
            Word::All => {
                self.tokens.advance();
                begin(depth, token.byte)?;
                self.want(Word::Open)?;
                let name = self.name()?;
                let node = self.all_rest(name, depth, types)?;
                self.whole(token.byte, node)
            }
            Word::Rec => {
                self.tokens.advance();
                begin(depth, token.byte)?;
                self.want(Word::Open)?;
                let name = self.name()?;
                self.want(Word::Close)?;
                let body = self.read_type(depth + 1, &Binders::Inside(name, &*types))?;
                self.whole(token.byte, Node::RecType { body })
            }
            Word::OpenBrace => {
                self.tokens.advance();
                begin(depth, token.byte)?;
                let inner = self.read_type(depth + 1, types)?;
                self.want(Word::CloseBrace)?;
                Ok(inner)
            }
            _ => Err(SyntaxFault::Unexpected(token.byte)),
        }
    }

    // What stands behind the name of All. Gives the node of the type.
    #[cycle(types)]
    fn all_rest(&mut self, name: Name, depth: u8, types: &Binders<'_>) -> Result<Node, SyntaxFault>
        requires binders { length (names types.now) ≤ depth }
        requires depth { depth < 128 }
        ensures parsed { (q : ℕ) → Parsed all_rest depth q self.old self.new (λ v. GivenType (names types.now) (nodes self.old) (nodes self.new) (v name)) result }
        ensures limits { limits self.new ≡ limits self.old }
        ensures shorter { IfOk result (λ _. length (items self.new) ≤ length (items self.old)) }
    {
        if self.take(Word::Below)? {
            let bound = self.read_type(depth + 1, types)?;
            self.want(Word::Close)?;
            let body = self.read_type(depth + 1, &Binders::Inside(name, &*types))?;
            Ok(Node::All { bound, body })
        } else {
            self.want(Word::Close)?;
            let first = self.tree.count();
            let body = self.read_type(depth + 1, &Binders::Inside(name, &*types))?;
            Ok(Node::AllUnbounded { first, body })
        }
    }
}

// The node of a type's name.
fn type_name(byte: u16, name: Name, types: &Binders<'_>) -> Node
    requires { length (names types.now) ≤ 128 }
    ensures { result ≡ type_leaf (number_of (names types.now) name) byte name (length (names types.now)) }
{
    match types.number_of(name) {
        Some(number) => Node::TypeVar { number },
        None => Node::TypeName {
            byte,
            name,
            inside: types.count(),
        },
    }
}
