ghost use Rattle.std.specs.Prelude.{◌≡◌, ◌<◌, ◌==◌, ◌&&◌, ◌∷◌, ◌++◌, [], ℕ, true, None, Some, if◌then◌else◌, not};
ghost use Rattle.std.specs.Prelude.{length, get_or, slice_get, IfOk, OnOk, IfSome};
ghost use Rattle.std.specs.Option.{option_and_then, option_copied};
ghost use Rattle.skk_text.specs.Lists.{is_empty};
ghost use Rattle.romaji_rules.specs.Fitting.{inputs_differ};
ghost use Rattle.romaji_rules.specs.RuleTries.{child_by, children_of, goes_on_at, next_node, node_of, place_at};
ghost use Rattle.romaji_rules.specs.RuleTries.{places_of, AddsChild, HasNode, MakesChild, IsTrie, IsRuleTrie};
ghost use Rattle.romaji_rules.specs.Typed.{rule_of, begins_input};

use crate::rule::Rule;
use skk_text::Memory;
use std::alloc::Global;

/// The inputs of rules as a trie: a node for each text that is one or begins one, from which a letter leads to the node
/// of the text with it behind. A text is looked for by one step a letter, whatever the number of rules.
#[derive(Debug, Drop)]
pub struct RuleTrie {
    // The first is that of the empty text.
    nodes: Vec<Node>,
    // The node of each text of one letter: no other node has as many children as the first.
    first: Box<[Option<usize>; 256]>,
}

// What is known of a text.
#[derive(Debug, Drop)]
struct Node {
    // The place of the rule whose input it is.
    place: Option<usize>,
    // Where it goes on.
    children: Vec<Child>,
}

// A letter behind a text, and the node of the text with it.
#[derive(Clone, Copy, Debug)]
struct Child {
    letter: u8,
    node: usize,
}

// The node of the empty text.
const ROOT: usize = 0;

impl RuleTrie {
    /// That of no rules.
    pub fn new(alloc: Global) -> Result<RuleTrie, Memory>
        ensures { IfOk result (IsRuleTrie []) }
    {
        let mut nodes = Vec::new(alloc);
        nodes.push(Node::new(alloc))?;
        let first = Box::new(alloc, [None; 256])?;
        Ok(RuleTrie { nodes, first })
    }

    /// That of all rules of a list. Takes time in their letters.
    pub fn of(alloc: Global, rules: &[Rule]) -> Result<RuleTrie, Memory>
        requires { inputs_differ rules.now ≡ true }
        ensures { IfOk result (IsRuleTrie rules.now) }
    {
        let mut trie = RuleTrie::new(alloc)?;
        for (place, rule) in rules.iter().enumerate() {
            trie.add(&rules[..place], rule)?;
        }
        Ok(trie)
    }

    /// Adds a rule that comes behind these, of which none has its input. Takes time in the letters of its input.
    pub fn add(&mut self, rules: &[Rule], rule: &Rule) -> Result<(), Memory>
        requires trie { IsRuleTrie rules.now self.old }
        requires new { rule_of rules.now rule.now.input ≡ None }
        ensures { OnOk result (IsRuleTrie (rules.now ++ rule.now ∷ []) self.new) }
    {
        let node = self.make_node(rule.input.as_slice())?;
        self.nodes[node].place = Some(rules.len());
        Ok(())
    }

    // The node of a text: it is made, with those of all that begin the text, where it is missing.
    fn make_node(&mut self, text: &[u8]) -> Result<usize, Memory>
        requires { IsTrie self.old }
        ensures { IfOk result (HasNode self.old self.new text.now) }
    {
        let mut node = ROOT;
        for letter in text {
            node = self.make_child(node, *letter)?;
        }
        Ok(node)
    }

    // The node behind a letter: it is made where it is missing.
    fn make_child(&mut self, node: usize, letter: u8) -> Result<usize, Memory>
        requires trie { IsTrie self.old }
        requires there { node < length (children_of self.old) }
        ensures { IfOk result (MakesChild self.old self.new node letter) }
    {
        match self.child(node, letter) {
            Some(child) => Ok(child),
            None => self.add_child(node, letter),
        }
    }

    // Adds a node behind a letter that has none yet.
    fn add_child(&mut self, node: usize, letter: u8) -> Result<usize, Memory>
        requires { node < length (children_of self.old) }
        ensures { IfOk result (AddsChild self.old self.new node letter) }
    {
        let child = self.nodes.len();
        self.nodes.push(Node::new(*self.nodes.allocator()))?;
        self.nodes[node].children.push(Child {
            letter,
            node: child,
        })?;
        note_first(&mut self.first, node, letter, child);
        Ok(child)
    }

    /// The rule whose input is the text, and whether some input begins with the text and goes on. Takes time in the
    /// letters of the text, for each at most in the number of those that may follow there.
    pub fn look_up<'a>(&self, rules: &'a [Rule], text: &[u8]) -> (Option<&'a Rule>, bool)
        requires { IsRuleTrie rules.now self.now }
        ensures rule { option_copied result.0 ≡ rule_of rules.now text.now }
        ensures begins { result.1 ≡ begins_input rules.now text.now }
    {
        self.told(rules, self.node_of(text))
    }

    /// What `look_up` gives for the text with the letter behind it.
    pub fn look_up_behind<'a>(
        &self,
        rules: &'a [Rule],
        text: &[u8],
        letter: u8,
    ) -> (Option<&'a Rule>, bool)
        requires { IsRuleTrie rules.now self.now }
        ensures rule { option_copied result.0 ≡ rule_of rules.now (text.now ++ letter ∷ []) }
        ensures begins { result.1 ≡ begins_input rules.now (text.now ++ letter ∷ []) }
    {
        self.told(rules, self.node_behind(text, letter))
    }

    // The rule whose place is noted at a node, and whether the node goes on.
    fn told<'a>(&self, rules: &'a [Rule], node: Option<usize>) -> (Option<&'a Rule>, bool)
        requires there { IfSome node (λ n. n < length (children_of self.now)) }
        requires place { IfSome (place_at (places_of self.now) node) (λ p. p < length rules.now) }
        ensures rule { option_copied result.0
            ≡ option_and_then (slice_get rules.now) (place_at (places_of self.now) node) }
        ensures begins { result.1 ≡ goes_on_at (children_of self.now) node }
    {
        let Some(node) = node else {
            return (None, false);
        };
        let Node { place, children } = &self.nodes[node];
        (rule_at(rules, *place), goes_on(children))
    }

    // The node of a text, where it is an input or begins one.
    fn node_of(&self, text: &[u8]) -> Option<usize>
        requires { IsTrie self.now }
        ensures { result ≡ node_of (children_of self.now) text.now }
    {
        let mut node = ROOT;
        for letter in text {
            node = self.child(node, *letter)?;
        }
        Some(node)
    }

    // The node of a text with a letter behind it, where that is an input or begins one.
    fn node_behind(&self, text: &[u8], letter: u8) -> Option<usize>
        requires { IsTrie self.now }
        ensures { result ≡ node_of (children_of self.now) (text.now ++ letter ∷ []) }
    {
        match self.node_of(text) {
            Some(node) => self.child(node, letter),
            None => None,
        }
    }

    // The node behind a letter.
    fn child(&self, node: usize, letter: u8) -> Option<usize>
        requires trie { IsTrie self.now }
        requires there { node < length (children_of self.now) }
        ensures { result ≡ next_node (children_of self.now) (Some node) letter }
    {
        if node == ROOT {
            self.first[usize::from(letter)]
        } else {
            child_by(&self.nodes[node].children, letter)
        }
    }
}

impl Node {
    // No rule, and nothing that goes on. Takes no memory.
    fn new(alloc: Global) -> Node
        ensures place { result.place ≡ None }
        ensures children { result.children.items ≡ [] }
    {
        Node {
            place: None,
            children: Vec::new(alloc),
        }
    }
}

// The node behind a letter.
fn child_by(children: &[Child], letter: u8) -> Option<usize>
    ensures { result ≡ child_by children.now letter }
{
    for child in children {
        if child.letter == letter {
            return Some(child.node);
        }
    }
    None
}

// Notes the node behind a letter, where it is that of a text of one letter.
fn note_first(first: &mut [Option<usize>; 256], node: usize, letter: u8, child: usize)
    ensures { (other : ℕ) → get_or first.new other None
        ≡ (if node == 0 && other == letter then Some child else get_or first.old other None) }
{
    if node == ROOT {
        first[usize::from(letter)] = Some(child);
    }
}

// The rule at a place, where there is one.
fn rule_at(rules: &[Rule], place: Option<usize>) -> Option<&Rule>
    requires { IfSome place (λ p. p < length rules.now) }
    ensures { option_copied result ≡ option_and_then (slice_get rules.now) place }
{
    match place {
        Some(place) => Some(&rules[place]),
        None => None,
    }
}

// Whether there is a letter by which a text goes on.
fn goes_on(children: &[Child]) -> bool
    ensures { result ≡ not (is_empty children.now) }
{
    !children.is_empty()
}
