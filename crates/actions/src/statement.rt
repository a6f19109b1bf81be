// What a line that the search puts says.

ghost use Rattle.std.specs.Prelude.{◌≡◌};

use crate::wide::Wide;
use lines::code;
use rules::AllCode;

// the rule that concludes a <: b
#[derive(Clone, Copy)]
pub enum SubRule {
    Refl,
    Trans,
    Var,
    Top,
    Arrow,
    All(AllCode),
}

// the rule that gives a term its type
#[derive(Clone, Copy)]
pub enum HasRule {
    Subsumed,
    Var,
    Top,
    Fun,
    Appl,
    Fun2,
    Appl2,
    Fold,
    Unfold,
    Rec,
}

// k and j are plain numbers, and may pass 65,535: such a line is refused where it would be put.
#[derive(Clone, Copy)]
pub enum Statement {
    TypeTop,
    TypeVar {
        k: u64,
    },
    Arrow {
        a: u16,
        b: u16,
    },
    All {
        a: u16,
        b: u16,
    },
    Rec {
        b: u16,
    },
    TopTerm,
    TermVar {
        k: u64,
    },
    Fun {
        a: u16,
        b: u16,
    },
    Appl {
        b: u16,
        a: u16,
    },
    Fun2 {
        a: u16,
        b: u16,
    },
    Appl2 {
        b: u16,
        a: u16,
    },
    FoldTerm {
        a: u16,
        b: u16,
    },
    UnfoldTerm {
        b: u16,
    },
    RecTerm {
        a: u16,
        b: u16,
    },
    EnvTerm {
        env: u16,
        a: u16,
    },
    EnvType {
        env: u16,
        a: u16,
    },
    Raising {
        a: u16,
        j: u32,
        c: u16,
        p: u16,
        q: u16,
    },
    Putting {
        b: u16,
        j: u32,
        a: u16,
        c: u16,
        p: u16,
        q: u16,
        r: u16,
    },
    Bound {
        env: u16,
        k: u16,
        b: u16,
        p: u16,
        q: u16,
    },
    Typing {
        env: u16,
        k: u16,
        a: u16,
        p: u16,
        q: u16,
    },
    IsEnv {
        env: u16,
        p: u16,
    },
    IsType {
        env: u16,
        a: u16,
        p: u16,
        q: u16,
    },
    IsSub {
        rule: SubRule,
        env: u16,
        a: u16,
        b: u16,
        p: u16,
        q: u16,
    },
    Has {
        rule: HasRule,
        env: u16,
        term: u16,
        a: u16,
        p: u16,
        q: u16,
        r: u16,
    },
}

impl SubRule {
    ghost use Rattle.rules.specs.Codes.{sub_code};
    ghost use Rattle.actions.specs.Actions.{sub_rule};

    fn code(self) -> u8
        ensures { result ≡ sub_code (sub_rule self) }
    {
        match self {
            SubRule::Refl => code::SUB_REFL,
            SubRule::Trans => code::SUB_TRANS,
            SubRule::Var => code::SUB_VAR,
            SubRule::Top => code::SUB_TOP,
            SubRule::Arrow => code::SUB_ARROW,
            SubRule::All(all) => all.number(),
        }
    }
}

impl HasRule {
    ghost use Rattle.rules.specs.Codes.{has_code};
    ghost use Rattle.actions.specs.Actions.{has_rule};

    fn code(self) -> u8
        ensures { result ≡ has_code (has_rule self) }
    {
        match self {
            HasRule::Subsumed => code::HAS_SUBSUMED,
            HasRule::Var => code::HAS_VAR,
            HasRule::Top => code::HAS_TOP,
            HasRule::Fun => code::HAS_FUN,
            HasRule::Appl => code::HAS_APPL,
            HasRule::Fun2 => code::HAS_FUN2,
            HasRule::Appl2 => code::HAS_APPL2,
            HasRule::Fold => code::HAS_FOLD,
            HasRule::Unfold => code::HAS_UNFOLD,
            HasRule::Rec => code::HAS_REC,
        }
    }
}

impl Statement {
    ghost use Rattle.judge.specs.Seeking.{result as found};
    ghost use Rattle.rules.specs.Codes.{line};
    ghost use Rattle.actions.specs.Actions.{stated};
    ghost use Rattle.actions.specs.Wides.{widened};

    // The line that says it.
    pub fn line(self) -> Wide
        ensures { widened result ≡ line (stated self) }
    {
        match self {
            Statement::TypeTop => Wide {
                code: code::TYPE_TOP,
                ..Wide::default()
            },
            Statement::TypeVar { k } => Wide {
                code: code::TYPE_VAR,
                c1: k,
                ..Wide::default()
            },
            Statement::Arrow { a, b } => Wide {
                code: code::TYPE_ARROW,
                c1: a.into(),
                c2: b.into(),
                ..Wide::default()
            },
            Statement::All { a, b } => Wide {
                code: code::TYPE_ALL,
                c1: a.into(),
                c2: b.into(),
                ..Wide::default()
            },
            Statement::Rec { b } => Wide {
                code: code::TYPE_REC,
                c1: b.into(),
                ..Wide::default()
            },
            Statement::TopTerm => Wide {
                code: code::TERM_TOP,
                ..Wide::default()
            },
            Statement::TermVar { k } => Wide {
                code: code::TERM_VAR,
                c1: k,
                ..Wide::default()
            },
            Statement::Fun { a, b } => Wide {
                code: code::TERM_FUN,
                c1: a.into(),
                c2: b.into(),
                ..Wide::default()
            },
            Statement::Appl { b, a } => Wide {
                code: code::TERM_APPL,
                c1: b.into(),
                c2: a.into(),
                ..Wide::default()
            },
            Statement::Fun2 { a, b } => Wide {
                code: code::TERM_FUN2,
                c1: a.into(),
                c2: b.into(),
                ..Wide::default()
            },
            Statement::Appl2 { b, a } => Wide {
                code: code::TERM_APPL2,
                c1: b.into(),
                c2: a.into(),
                ..Wide::default()
            },
            Statement::FoldTerm { a, b } => Wide {
                code: code::TERM_FOLD,
                c1: a.into(),
                c2: b.into(),
                ..Wide::default()
            },
            Statement::UnfoldTerm { b } => Wide {
                code: code::TERM_UNFOLD,
                c1: b.into(),
                ..Wide::default()
            },
            Statement::RecTerm { a, b } => Wide {
                code: code::TERM_REC,
                c1: a.into(),
                c2: b.into(),
                ..Wide::default()
            },
            Statement::EnvTerm { env, a } => Wide {
                code: code::ENV_TERM,
                c1: env.into(),
                c2: a.into(),
                ..Wide::default()
            },
            Statement::EnvType { env, a } => Wide {
                code: code::ENV_TYPE,
                c1: env.into(),
                c2: a.into(),
                ..Wide::default()
            },
            Statement::Raising { a, j, c, p, q } => Wide {
                code: code::RAISE,
                c1: a.into(),
                c2: j,
                c3: c,
                c4: p,
                c5: q,
                ..Wide::default()
            },
            Statement::Putting {
                b,
                j,
                a,
                c,
                p,
                q,
                r,
            } => Wide {
                code: code::PUT,
                c1: b.into(),
                c2: j,
                c3: a,
                c4: c,
                c5: p,
                c6: q,
                c7: r,
            },
            Statement::Bound { env, k, b, p, q } => Wide {
                code: code::BOUND,
                c1: env.into(),
                c2: k.into(),
                c3: b,
                c4: p,
                c5: q,
                ..Wide::default()
            },
            Statement::Typing { env, k, a, p, q } => Wide {
                code: code::TYPING,
                c1: env.into(),
                c2: k.into(),
                c3: a,
                c4: p,
                c5: q,
                ..Wide::default()
            },
            Statement::IsEnv { env, p } => Wide {
                code: code::IS_ENV,
                c1: env.into(),
                c2: p.into(),
                ..Wide::default()
            },
            Statement::IsType { env, a, p, q } => Wide {
                code: code::IS_TYPE,
                c1: env.into(),
                c2: a.into(),
                c3: p,
                c4: q,
                ..Wide::default()
            },
            Statement::IsSub {
                rule,
                env,
                a,
                b,
                p,
                q,
            } => Wide {
                code: rule.code(),
                c1: env.into(),
                c2: a.into(),
                c3: b,
                c4: p,
                c5: q,
                ..Wide::default()
            },
            Statement::Has {
                rule,
                env,
                term,
                a,
                p,
                q,
                r,
            } => Wide {
                code: rule.code(),
                c1: env.into(),
                c2: term.into(),
                c3: a,
                c4: p,
                c5: q,
                c6: r,
                ..Wide::default()
            },
        }
    }

    // What is found out by establishing it.
    pub fn result(self) -> u16
        ensures { result ≡ found (stated self) }
    {
        match self {
            Statement::Raising { c, .. } | Statement::Putting { c, .. } => c,
            Statement::Bound { b, .. } | Statement::IsSub { b, .. } => b,
            Statement::Typing { a, .. } | Statement::Has { a, .. } => a,
            _ => 0,
        }
    }
}
