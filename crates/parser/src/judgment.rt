// The words behind judge: which judgment is to be found.

ghost use Rattle.std.specs.Prelude.{◌≡◌};
ghost use Rattle.parser.specs.Judgments.{judgment_named};

use lexer::Name;

#[derive(Clone, Copy, PartialEq, Eq, Debug)]
pub(crate) enum Judgment {
    IsEnv,
    IsType,
    IsSubtype,
    HasType,
}

impl Judgment {
    // The judgment that the name stands for behind judge.
    pub(crate) fn named(name: Name) -> Option<Judgment>
        ensures { result ≡ judgment_named name }
    {
        if Name::new(b"env") == Some(name) {
            Some(Judgment::IsEnv)
        } else if Name::new(b"type") == Some(name) {
            Some(Judgment::IsType)
        } else if Name::new(b"subtype") == Some(name) {
            Some(Judgment::IsSubtype)
        } else if Name::new(b"term") == Some(name) {
            Some(Judgment::HasType)
        } else {
            None
        }
    }
}
