//! A tree written as tokens.
ghost use Rattle.std.specs.Prelude.{◌≤◌, [], ◌∷◌};
ghost use Rattle.lexer.specs.declared.Mark.TheVariants.{Comma as comma, Semicolon as semicolon, Delay as delay_word, End as end_word};
ghost use Rattle.lexer.specs.declared.Token.TheVariants.{Name as name, Mark as a_mark};
ghost use Rattle.printer.specs.Printed.{SameRoom, Puts, PutsExpr, PutsSetting, PutsStmt, SizedStmt, Prints};

use base::Refusal;
use lexer::{Mark, Token};
use syntax::node::{Node, node_at};
use syntax::{Tree, strength_of};

/// The level at which every operation stands in brackets.
const OPERAND: u16 = 0;
/// The level at which none does.
const ANY: u16 = 5;

/// Counts tokens, and writes them to a lent room as far as it reaches. The nodes that it reads are lent to each call: as a
/// field each method would have to promise that they stay.
#[derive(Drop)]
struct Writer<'a> {
    room: &'a mut [u16],
    count: usize,
}

impl Writer<'_> {
    /// Writes a token, if there is room for it.
    fn put(&mut self, token: Token)
        ensures same { SameRoom self.old self.new }
        ensures puts { Puts (token ∷ []) self.old self.new }
    {
        // Tokens lie in a lent room as pairs of numbers.
        if self.count < self.room.len() / 2 {
            let (kind, value) = token.pair();
            self.room[2 * self.count] = kind;
            self.room[2 * self.count + 1] = value;
        }
        self.count = self.count.saturating_add(1);
    }

    /// Writes a mark.
    fn put_mark(&mut self, mark: Mark)
        ensures same { SameRoom self.old self.new }
        ensures puts { Puts (a_mark mark ∷ []) self.old self.new }
    {
        self.put(Token::Mark(mark));
    }

    /// Writes the expression that a node holds, where one of a level is expected.
    fn put_expr(&mut self, nodes: &[u16], i: u16, level: u16)
        ensures same { SameRoom self.old self.new }
        ensures puts { PutsExpr nodes.now i level self.old self.new }
    {
        match node_at(nodes, i) {
            Node::Literal(number) => self.put(Token::Number(number)),
            Node::Variable(variable) => self.put(Token::Name(variable)),
            Node::Not(operand) => {
                self.put_mark(Mark::Not);
                self.put_expr(nodes, operand, OPERAND);
            }
            Node::Binary(op, left, right) => {
                let strength = strength_of(op);
                if strength < level {
                    self.put_expr(nodes, left, strength + 1);
                    self.put(Token::Operator(op));
                    self.put_expr(nodes, right, strength);
                } else {
                    self.put_mark(Mark::Open);
                    self.put_expr(nodes, i, ANY);
                    self.put_mark(Mark::Close);
                }
            }
            // No expression.
            _ => {}
        }
    }

    /// Writes `end ;`.
    fn put_end(&mut self)
        ensures same { SameRoom self.old self.new }
        ensures puts { Puts (a_mark end_word ∷ (a_mark semicolon ∷ [])) self.old self.new }
    {
        self.put_mark(Mark::End);
        self.put_mark(Mark::Semicolon);
    }

    /// Writes `delay v1 , v2 ,`.
    fn put_delay(&mut self, out: u16, counter: u16)
        ensures same { SameRoom self.old self.new }
        ensures puts { Puts (a_mark delay_word ∷ (name out ∷ (a_mark comma ∷ (name counter ∷ (a_mark comma ∷ []))))) self.old self.new }
    {
        self.put_mark(Mark::Delay);
        self.put(Token::Name(out));
        self.put_mark(Mark::Comma);
        self.put(Token::Name(counter));
        self.put_mark(Mark::Comma);
    }

    /// Writes the condition and the length of a delay, and `;`.
    fn put_setting(&mut self, nodes: &[u16], i: u16)
        ensures same { SameRoom self.old self.new }
        ensures puts { PutsSetting nodes.now i self.old self.new }
    {
        if let Node::Setting(condition, length) = node_at(nodes, i) {
            self.put_expr(nodes, condition, ANY);
            self.put_mark(Mark::Comma);
            self.put(Token::Number(length));
            self.put_mark(Mark::Semicolon);
        }
    }

    /// Writes the statement that a node holds.
    fn put_stmt(&mut self, nodes: &[u16], i: u16)
        ensures same { SameRoom self.old self.new }
        ensures puts { PutsStmt nodes.now i self.old self.new }
    {
        match node_at(nodes, i) {
            Node::Assign(variable, value) => {
                self.put(Token::Name(variable));
                self.put_mark(Mark::Assign);
                self.put_expr(nodes, value, ANY);
                self.put_mark(Mark::Semicolon);
            }
            Node::Seq(first, second) => {
                self.put_stmt(nodes, first);
                self.put_stmt(nodes, second);
            }
            Node::Branch(condition, yes, no) => {
                self.put_mark(Mark::If);
                self.put_expr(nodes, condition, ANY);
                self.put_mark(Mark::Then);
                self.put_stmt(nodes, yes);
                self.put_mark(Mark::Else);
                self.put_stmt(nodes, no);
                self.put_end();
            }
            Node::Repeat(rounds, body) => {
                self.put_mark(Mark::Repeat);
                self.put(Token::Number(rounds));
                self.put_mark(Mark::Times);
                self.put_stmt(nodes, body);
                self.put_end();
            }
            Node::Delay(out, counter, setting) => {
                self.put_delay(out, counter);
                self.put_setting(nodes, setting);
            }
            // A skip, or no statement.
            _ => {}
        }
    }
}

/// How many tokens a program is printed as: it is written to no room.
fn size(tree: &Tree) -> usize
    ensures small { result ≤ 4096 }
    ensures sized { SizedStmt tree.now.nodes tree.now.root result }
{
    let mut writer = Writer {
        room: &mut [],
        count: 0,
    };
    writer.put_stmt(tree.nodes(), tree.root());
    writer.count
}

/// Prints a program at the start of a room, and says how many tokens it has; a room that is too short is left as it was.
pub fn print(tree: &Tree, room: &mut [u16]) -> Result<u64, Refusal>
    ensures { Prints tree.now.nodes tree.now.root room.old result room.new }
{
    let size = size(tree);
    if size > room.len() / 2 {
        return Err(Refusal::Length(1));
    }
    let mut writer = Writer { room, count: 0 };
    writer.put_stmt(tree.nodes(), tree.root());
    Ok(size as u64)
}
