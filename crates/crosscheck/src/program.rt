//! A random program's text, with what is known of it: its tree, its tokens, and where it goes wrong if it does.
use crate::blanks::Writer;
use crate::grammar::misfit;
use crate::growing::grow;
use crate::random::Random;
use crate::refusal::Refusal;
use crate::spelling::Spelling;
use crate::spoiling::spoil;
use crate::token::{Symbol, Token};
use crate::tree::Stmt;
use std::alloc::{AllocError, Global};

/// No more tokens are taken.
const MOST_TOKENS: usize = 4096;

/// A program's tree, and the text that it is written as or, where it is refused, that this led to.
#[derive(Drop)]
pub struct Program {
    pub stmt: Stmt,
    pub text: String,
    /// Why it is refused, if it is.
    pub refused: Option<Refusal>,
}

impl Writer<'_> {
    /// A token behind another one, and a blank between them where one is needed or fancied; answers its place.
    fn token(&mut self, parted: bool, token: Token) -> Result<usize, AllocError> {
        if parted || self.random.chance(40) {
            self.text.push_str(self.random.between())?;
        }
        let place = self.text.len();
        if matches!(token, Token::Number(_)) && self.random.chance(5) {
            self.text.push_str("00")?;
        }
        write!(self.text, "{token}")?;
        Ok(place)
    }

    /// Tokens with blanks between them; answers the place of the first that is none, or is one too many.
    fn program(&mut self, tokens: &[Token]) -> Result<Option<usize>, AllocError> {
        let mut wrong = None;
        let mut before = Token::Symbol(Symbol::Semicolon);
        for (i, token) in tokens.iter().enumerate() {
            let place = self.token(before.parts_from(*token), *token)?;
            if wrong.is_none() && (token.is_wrong() || i == MOST_TOKENS) {
                wrong = Some(place);
            }
            before = *token;
        }
        Ok(wrong)
    }
}

/// The tokens of a tree; a few of them are spoiled.
fn tokens_of(random: &mut Random, stmt: &Stmt) -> Result<Vec<Token>, AllocError> {
    let mut spelling = Spelling::new(random);
    spelling.stmt(stmt)?;
    let tokens = spelling.into_tokens();
    if random.chance(8) {
        spoil(random, tokens)
    } else {
        Ok(tokens)
    }
}

/// Why a program is refused, by the first check that fails.
fn refusal(
    heap: Global,
    wrong: Option<usize>,
    tokens: &[Token],
    stmt: &Stmt,
) -> Result<Option<Refusal>, AllocError> {
    if let Some(place) = wrong {
        return Ok(Some(Refusal::Text(place)));
    }
    if let Some(place) = misfit(heap, tokens)? {
        return Ok(Some(Refusal::Grammar(place)));
    }
    Ok(stmt.needs().limit().map(Refusal::Limit))
}

impl Program {
    /// A program that can most often be read.
    pub(crate) fn random(random: &mut Random) -> Result<Program, AllocError> {
        let heap = random.heap;
        let stmt = grow(random)?;
        let tokens = tokens_of(random, &stmt)?;
        let mut out = Writer::new(random);
        let wrong = out.program(tokens.as_slice())?;
        Ok(Program {
            refused: refusal(heap, wrong, tokens.as_slice(), &stmt)?,
            text: out.into_text(),
            stmt,
        })
    }
}
