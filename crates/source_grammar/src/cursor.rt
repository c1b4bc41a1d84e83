//! The tokens that are left to read.

ghost use Rattle.std.specs.Prelude.{◌≡◌, ◌∷◌, ◌++◌, [], IfOk, OnOk, MatchOption};
ghost use Rattle.source_grammar.specs.Grammar.{name, sign, word};
ghost use Rattle.source_grammar.specs.Inside.Machine.{AName, ASign, AWord};
ghost use Rattle.source_grammar.specs.Inside.Next.{declaration_form, action_form, expr_form, form_at, is_at, is_end, is_name, is_sign, joint_form, mid_form, tail_form, ty_form};
ghost use Rattle.source_grammar.specs.Inside.Stops.{Moves, MovesAll};
ghost use Rattle.source_tokens.specs.Runs.{joined};

use crate::choice::{
    ActionForm, DeclarationForm, ExprForm, Joint, Mid, Prefix, Side, TailForm, TyForm,
};
use crate::raw::Name;
use priml_syntax::Op;
use source_tokens::token::{Kind, Sign, Token, Word};
use std::alloc::AllocError;
use std::marker::Model;

/// Why a form is not read.
#[derive(Drop, Debug)]
pub enum Stop {
    /// The next token cannot follow the ones before it. It is not taken.
    Syntax,
    Memory,
}

impl From<AllocError> for Stop {
    ghost use Rattle.source_grammar.specs.declared.cursor.Stop.TheVariants as stop;

    ghost from_gives = { λ _ e. e ≡ stop.Memory };

    fn from(_error: AllocError) -> Stop {
        Stop::Memory
    }
}

/// The tokens that are left, from the next one on: those of a run and of the runs behind it.
#[derive(Drop)]
pub struct Tokens<'a> {
    rest: &'a [Token],
    later: &'a [Vec<Token>],
    ghost settled: { rest.now ≡ [] → joined later.now ≡ [] },
}

impl<'a> Model for Tokens<'a> {
    ghost use Rattle.std.specs.Prelude.{◌++◌, List};
    ghost use Rattle.source_tokens.specs.declared.token.Token.{Token};
    ghost use Rattle.source_tokens.specs.Runs.{joined};

    ghost Value = { List Token };

    ghost view = { λ t. t.rest.now ++ joined t.later.now };
}

impl<'a> Tokens<'a> {
    /// All of the tokens of these runs.
    pub fn new(runs: &'a [Vec<Token>]) -> Tokens<'a>
        ensures { result ≡ joined runs.now }
    {
        let mut later = runs;
        while let Some((run, behind)) = later.split_first() {
            if !run.is_empty() {
                return Tokens {
                    rest: run,
                    later: behind,
                };
            }
            later = behind;
        }
        Tokens { rest: &[], later }
    }

    /// The next token, which stays.
    pub fn peek(&self) -> Option<Token>
        ensures { MatchOption result (self.now ≡ []) (λ t. (ts : _) × (self.now ≡ t ∷ ts)) }
    {
        self.rest.first().copied()
    }

    /// Takes the next token.
    pub fn next(&mut self) -> Option<Token>
        ensures { MatchOption result ((self.old ≡ []) × (self.new ≡ [])) (λ t. self.old ≡ t ∷ self.new) }
    {
        let (first, rest) = self.rest.split_first()?;
        if rest.is_empty() {
            *self = Tokens::new(self.later);
        } else {
            self.rest = rest;
        }
        Some(*first)
    }

    /// Whether a name comes next.
    pub fn is_at_name(&self) -> bool
        ensures { result ≡ is_at is_name self.now }
    {
        match self.peek() {
            Some(
                Token {
                    kind: Kind::Name(_),
                    ..
                },
            ) => true,
            _ => false,
        }
    }

    /// Whether this sign comes next.
    pub fn is_at_sign(&self, want: Sign) -> bool
        ensures { result ≡ is_at (is_sign want) self.now }
    {
        match self.peek() {
            Some(
                Token {
                    kind: Kind::Sign(found),
                    ..
                },
            ) => found == want,
            _ => false,
        }
    }

    /// Whether a sign comes next that may end a list with commas.
    pub fn is_at_end(&self) -> bool
        ensures { result ≡ is_at is_end self.now }
    {
        match self.peek() {
            Some(
                Token {
                    kind: Kind::Sign(Sign::CloseParen | Sign::CloseBracket | Sign::Semicolon),
                    ..
                },
            ) => true,
            _ => false,
        }
    }

    /// Which type comes next, if one does.
    pub fn ty_form(&self) -> Option<TyForm>
        ensures { result ≡ form_at ty_form self.now }
    {
        match self.peek()?.kind {
            Kind::Word(Word::Unit | Word::Bool | Word::Int) => Some(TyForm::Simple),
            Kind::Word(Word::Thread) => Some(TyForm::Thread),
            Kind::Sign(Sign::OpenParen) => Some(TyForm::Paired),
            _ => None,
        }
    }

    /// What joins two types, if it comes next.
    pub fn mid_form(&self) -> Option<Mid>
        ensures { result ≡ form_at mid_form self.now }
    {
        match self.peek()?.kind {
            Kind::Sign(Sign::Star) => Some(Mid::Star),
            Kind::Sign(Sign::Plus) => Some(Mid::Plus),
            _ => None,
        }
    }

    /// Which expression comes next, if one does.
    pub fn expr_form(&self) -> Option<ExprForm>
        ensures { result ≡ form_at expr_form self.now }
    {
        match self.peek()?.kind {
            Kind::Name(_) | Kind::Number(_) | Kind::Word(Word::True | Word::False) => Some(
                ExprForm::Leaf,
            ),
            Kind::Sign(Sign::OpenParen) => Some(ExprForm::Opened),
            Kind::Word(Word::Fst) => Some(ExprForm::Applied(Prefix::First)),
            Kind::Word(Word::Snd) => Some(ExprForm::Applied(Prefix::Second)),
            Kind::Word(Word::Not) => Some(ExprForm::Applied(Prefix::Negated)),
            Kind::Word(Word::Inl) => Some(ExprForm::Injected(Side::Left)),
            Kind::Word(Word::Inr) => Some(ExprForm::Injected(Side::Right)),
            _ => None,
        }
    }

    /// What joins two expressions, if it comes next.
    pub fn joint_form(&self) -> Option<Joint>
        ensures { result ≡ form_at joint_form self.now }
    {
        match self.peek()?.kind {
            Kind::Sign(Sign::Comma) => Some(Joint::Comma),
            Kind::Sign(Sign::Plus) => Some(Joint::Operator(Op::Add)),
            Kind::Sign(Sign::Minus) => Some(Joint::Operator(Op::Sub)),
            Kind::Sign(Sign::Star) => Some(Joint::Operator(Op::Mul)),
            Kind::Sign(Sign::Slash) => Some(Joint::Operator(Op::Div)),
            Kind::Sign(Sign::Percent) => Some(Joint::Operator(Op::Rem)),
            Kind::Sign(Sign::Less) => Some(Joint::Operator(Op::Less)),
            Kind::Sign(Sign::AtMost) => Some(Joint::Operator(Op::AtMost)),
            Kind::Sign(Sign::Equal) => Some(Joint::Operator(Op::Equal)),
            Kind::Word(Word::And) => Some(Joint::Operator(Op::And)),
            Kind::Word(Word::Or) => Some(Joint::Operator(Op::Or)),
            _ => None,
        }
    }

    /// Which action comes next, if one does.
    pub fn action_form(&self) -> Option<ActionForm>
        ensures { result ≡ form_at action_form self.now }
    {
        match self.peek()?.kind {
            Kind::Word(Word::Ret) => Some(ActionForm::Ret),
            Kind::Word(Word::Spawn) => Some(ActionForm::Spawn),
            Kind::Word(Word::Sync) => Some(ActionForm::Sync),
            Kind::Word(Word::Call) => Some(ActionForm::Call),
            Kind::Word(Word::Do) => Some(ActionForm::Do),
            Kind::Word(Word::Input) => Some(ActionForm::Input),
            Kind::Word(Word::Output) => Some(ActionForm::Output),
            _ => None,
        }
    }

    /// Which ending comes next, if one does.
    pub fn tail_form(&self) -> Option<TailForm>
        ensures { result ≡ form_at tail_form self.now }
    {
        match self.peek()?.kind {
            Kind::Word(Word::Ret) => Some(TailForm::Ret),
            Kind::Word(Word::If) => Some(TailForm::If),
            Kind::Word(Word::Case) => Some(TailForm::Case),
            _ => None,
        }
    }

    /// Which declaration comes next, if one does.
    pub fn declaration_form(&self) -> Option<DeclarationForm>
        ensures { result ≡ form_at declaration_form self.now }
    {
        match self.peek()?.kind {
            Kind::Word(Word::Priority) => Some(DeclarationForm::Priority),
            Kind::Word(Word::Order) => Some(DeclarationForm::Order),
            Kind::Word(Word::Proc) => Some(DeclarationForm::Procedure),
            _ => None,
        }
    }

    /// Takes a name.
    #[tactic(auto, unfolding(crate::specs::Inside::Machine::halt))]
    pub fn name(&mut self) -> Result<Name, Stop>
        ensures ok { IfOk result (λ n. self.old ≡ name n ∷ self.new) }
        ensures moves { Moves AName self.old self.new result }
    {
        match self.peek() {
            Some(
                Token {
                    at,
                    kind: Kind::Name(id),
                },
            ) => {
                self.next();
                Ok(Name { at, id })
            }
            _ => Err(Stop::Syntax),
        }
    }

    /// Takes the reserved word that is wanted, and gives its offset.
    #[tactic(auto, unfolding(crate::specs::Inside::Machine::halt))]
    pub fn expect_word(&mut self, want: Word) -> Result<u64, Stop>
        ensures ok { IfOk result (λ at. self.old ≡ word at want ∷ self.new) }
        ensures moves { Moves (AWord want) self.old self.new result }
    {
        match self.peek() {
            Some(
                Token {
                    at,
                    kind: Kind::Word(found),
                },
            ) => {
                if found != want {
                    return Err(Stop::Syntax);
                }
                self.next();
                Ok(at)
            }
            _ => Err(Stop::Syntax),
        }
    }

    /// Takes the sign that is wanted, and gives its offset.
    #[tactic(auto, unfolding(crate::specs::Inside::Machine::halt))]
    pub fn expect_sign(&mut self, want: Sign) -> Result<u64, Stop>
        ensures ok { IfOk result (λ at. self.old ≡ sign at want ∷ self.new) }
        ensures moves { Moves (ASign want) self.old self.new result }
    {
        match self.peek() {
            Some(
                Token {
                    at,
                    kind: Kind::Sign(found),
                },
            ) => {
                if found != want {
                    return Err(Stop::Syntax);
                }
                self.next();
                Ok(at)
            }
            _ => Err(Stop::Syntax),
        }
    }

    /// Refuses where tokens are left.
    #[tactic(auto, unfolding(crate::specs::Inside::Machine::halt))]
    pub fn expect_end(&self) -> Result<(), Stop>
        ensures ok { OnOk result (self.now ≡ []) }
        ensures moves { MovesAll [] self.now self.now result }
    {
        match self.peek() {
            None => Ok(()),
            Some(_) => Err(Stop::Syntax),
        }
    }
}
