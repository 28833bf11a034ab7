//! The whole tree of a document, with the times at which its nodes are opened and closed. A time is a number of tokens.
ghost use Rattle.std.specs.Prelude.{◌≡◌, ◌++◌, ◌∷◌, [], ℕ, List, true, map, None, OnOk, IfOk};
ghost use Rattle.gcx_model.specs.Tree.{TreeToken as Said, opening, grow};
ghost use Rattle.gcx_model.specs.Growth.{may_all};
ghost use Rattle.doc_reader.specs.Standing.{said_of};
ghost use Rattle.trace_check.specs.Timing.{clock_in, IsLong, HasTaken, HasClosed, IsTimed};

use doc_reader::Token;
use doc_tree::Tree;
use gcx_base::Memory;
use std::alloc::Global;
use std::collections::VecDeque;

/// What a token did.
#[derive(Clone, Copy, Debug, PartialEq, Eq)]
pub(crate) enum Fed {
    /// It opened the next node.
    Opened,
    /// It closed this node.
    Closed(usize),
}

/// The tree of all tokens, each node closed, with the time of each opening and closing.
#[derive(Drop)]
pub(crate) struct Timed {
    pub tree: Tree,
    /// For each node the number of tokens up to the one that opened it.
    pub opened: Vec<usize>,
    /// For each node the number of tokens up to the one that closed it; a text is closed as it is opened.
    pub closed: Vec<usize>,
    /// What the tokens did.
    pub fed: Vec<Fed>,
    /// How many of them were given; the others close what was left open.
    pub told: usize,
}

impl Timed {
    /// The opening tree.
    fn new(alloc: Global) -> Result<Timed, Memory>
        ensures taken { IfOk result (HasTaken []) }
        ensures long { IfOk result IsLong }
        ensures tree { IfOk result (λ t. t.tree ≡ opening) }
    {
        let tree = Tree::new(alloc)?;
        let mut opened = Vec::new(alloc);
        let mut closed = Vec::new(alloc);
        opened.push(0)?;
        closed.push(0)?;
        Ok(Timed {
            tree,
            opened,
            closed,
            fed: Vec::new(alloc),
            told: 0,
        })
    }

    /// The time at which the node is opened.
    pub fn opened_at(&self, node: usize) -> usize
        ensures { result ≡ (clock_in self.now).opened node }
    {
        self.opened.get(node).copied().unwrap_or(0)
    }

    /// The time at which the node is closed.
    pub fn closed_at(&self, node: usize) -> usize
        ensures { result ≡ (clock_in self.now).closed node }
    {
        self.closed.get(node).copied().unwrap_or(0)
    }

    /// One token more, for the innermost open node. Behind the end of the document there is none.
    fn take(&mut self, token: Token) -> Result<(), Memory>
        requires open { self.old.tree.at ≡ None → ⊥ }
        requires long { IsLong self.old }
        ensures taken { OnOk result ((ts : List Said) → HasTaken ts self.old
            → HasTaken (ts ++ said_of token ∷ []) self.new) }
        ensures tree { OnOk result (self.new.tree ≡ grow (said_of token) self.old.tree) }
        ensures long { OnOk result (IsLong self.new) }
        ensures told { self.new.told ≡ self.old.told }
    {
        let Some(at) = self.tree.at() else {
            return Ok(());
        };
        let now = self.fed.len() + 1;
        match token {
            Token::Start(_) | Token::Text(_) => {
                self.opened.push(now)?;
                self.closed.push(now)?;
                self.fed.push(Fed::Opened)?;
            }
            Token::End | Token::EndOfDocument => {
                self.closed[at] = now;
                self.fed.push(Fed::Closed(at))?;
            }
        }
        self.tree.take(token)
    }

    /// The tokens in their order.
    fn take_all(&mut self, tokens: VecDeque<Token>) -> Result<(), Memory>
        requires come { may_all (map said_of tokens.items) self.old.tree ≡ true }
        requires long { IsLong self.old }
        ensures taken { OnOk result ((ts : List Said) → HasTaken ts self.old
            → HasTaken (ts ++ map said_of tokens.items) self.new) }
        ensures long { OnOk result (IsLong self.new) }
    {
        let mut tokens = tokens;
        'tokens: while let Some(token) = tokens.pop_front() {
            self.take(token)?;
        }
        Ok(())
    }

    /// Ends what is open.
    fn close(&mut self) -> Result<(), Memory>
        requires long { IsLong self.old }
        ensures closed { OnOk result ((ts : List Said) → HasTaken ts self.old → HasClosed ts self.new) }
        ensures told { self.new.told ≡ self.old.told }
    {
        'ends: while self.tree.at().is_some() {
            self.take(Token::End)?;
        }
        Ok(())
    }

    /// The times of the tokens, and behind them those at which what is left open is closed.
    pub fn of(alloc: Global, tokens: VecDeque<Token>) -> Result<Timed, Memory>
        requires { may_all (map said_of tokens.items) opening ≡ true }
        ensures { IfOk result (IsTimed (map said_of tokens.items)) }
    {
        let mut timed = Timed::new(alloc)?;
        timed.take_all(tokens)?;
        timed.told = timed.fed.len();
        timed.close()?;
        Ok(timed)
    }
}
