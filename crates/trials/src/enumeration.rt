// All trees of a language up to a depth, each with the strings that it comes to or its first mute node. Trees are built from their arguments
// on, and strings are kept as texts, so nothing of the linearizer is used.
use grammar::language::Language;
use grammar::signature::Arguments;
use grammar::symbol::{RuleForm, RuleKey, Symbol};
use std::alloc::{AllocError, Global};
use std::test::Fail;

// What a tree with a text comes to: its form, and a text for each constituent.
#[derive(Drop)]
pub struct Said {
    pub form: u8,
    pub strings: Vec<Vec<u8>>,
}

// A tree without a text, by the first node in its code that has no rule.
#[derive(Clone, Copy)]
pub struct Mute {
    pub node: usize,
}

// A tree by its code, with its category.
#[derive(Drop)]
pub struct Built {
    pub category: u8,
    pub code: Vec<u8>,
    pub outcome: Result<Said, Mute>,
}

// A function with the trees that are its arguments.
#[derive(Drop)]
struct Node<'a> {
    function: u8,
    category: u8,
    arguments: Vec<&'a Built>,
}

// The categories of a function's arguments: an arm for each case, as each has a list of another length.
fn list_categories(heap: Global, arguments: Arguments) -> Result<Vec<u8>, AllocError> {
    match arguments {
        Arguments::Zero => Ok(Vec::new(heap)),
        Arguments::One(a) => Vec::from_slice(heap, &[a]),
        Arguments::Two(a, b) => Vec::from_slice(heap, &[a, b]),
        Arguments::Three(a, b, c) => Vec::from_slice(heap, &[a, b, c]),
    }
}

// Puts a text behind another, with a blank between where both have words.
fn join_text(text: &mut Vec<u8>, more: &[u8]) -> Result<(), AllocError> {
    if !text.is_empty() && !more.is_empty() {
        text.push(b' ')?;
    }
    text.extend_from_slice(more)
}

// All lists of trees of the categories, the first tree varying least.
fn list_choices<'a>(
    heap: Global,
    trees: &'a [Built],
    categories: &[u8],
) -> Result<Vec<Vec<&'a Built>>, AllocError> {
    let mut choices = Vec::new(heap);
    choices.push(Vec::new(heap))?;
    for category in categories {
        let mut longer = Vec::new(heap);
        for choice in choices.iter() {
            for built in trees.iter().filter(|built| built.category == *category) {
                let mut more = Vec::from_slice(heap, choice.as_slice())?;
                more.push(built)?;
                longer.push(more)?;
            }
        }
        choices = longer;
    }
    Ok(choices)
}

impl<'a> Node<'a> {
    // The code: the function, and the codes of the arguments.
    fn code(&self, heap: Global) -> Result<Vec<u8>, AllocError> {
        let mut code = Vec::from_slice(heap, &[self.function])?;
        for argument in self.arguments.iter() {
            code.extend_from_slice(argument.code.as_slice())?;
        }
        Ok(code)
    }

    // The key of the rule, by the forms of the arguments, or the first mute node among them by its place in this node's code.
    fn rule_key(&self) -> Result<RuleKey, Mute> {
        let mut forms = [0; 3];
        let mut place: usize = 1;
        for (form, argument) in forms.iter_mut().zip(self.arguments.iter()) {
            match &argument.outcome {
                Ok(said) => *form = said.form,
                Err(mute) => {
                    return Err(Mute {
                        node: place.saturating_add(mute.node),
                    });
                }
            }
            place = place.saturating_add(argument.code.len());
        }
        Ok(RuleKey {
            function: self.function,
            forms,
        })
    }

    // A constituent of an argument that has a text.
    fn argument_text(&self, argument: u8, constituent: u8) -> Result<&[u8], Fail> {
        let built = self
            .arguments
            .get(usize::from(argument))
            .ok_or("no argument")?;
        match &built.outcome {
            Ok(said) => {
                let string = said.strings.get(usize::from(constituent));
                Ok(string.ok_or("no constituent")?.as_slice())
            }
            Err(_) => Err(Fail::new("a mute argument")),
        }
    }
}

// What builds a language's trees. Loops over a language go by number, as it is asked.
#[derive(Drop)]
struct Builder<'a, L> {
    heap: Global,
    language: &'a L,
}

impl<'a, L: Language> Builder<'a, L> {
    // The spelling of a word.
    fn spell(&self, word: u16) -> Result<Vec<u8>, Fail> {
        let length = self.language.word_length(word).ok_or("no word")?;
        (0..length)
            .map(|index| -> Result<u8, Fail> {
                Ok(self.language.word_byte(word, index).ok_or("no byte")?)
            })
            .try_collect(self.heap)
    }

    // One constituent of a node by the rule that the key names.
    fn build_string(&self, node: &Node, key: RuleKey, constituent: u8) -> Result<Vec<u8>, Fail> {
        let mut text = Vec::new(self.heap);
        let length = self
            .language
            .sequence_length(key, constituent)
            .ok_or("no sequence")?;
        for index in 0..length {
            let symbol = self.language.symbol(key, constituent, index);
            match symbol.ok_or("no symbol")? {
                Symbol::Word(word) => join_text(&mut text, self.spell(word)?.as_slice())?,
                Symbol::Reference {
                    argument,
                    constituent,
                } => join_text(&mut text, node.argument_text(argument, constituent)?)?,
            }
        }
        Ok(text)
    }

    // The form and the strings that a node's rule gives it, or the first mute node.
    fn build_outcome(&self, node: &Node) -> Result<Result<Said, Mute>, Fail> {
        let key = match node.rule_key() {
            Ok(key) => key,
            Err(mute) => return Ok(Err(mute)),
        };
        let form = match self.language.rule(key).ok_or("no answer")? {
            RuleForm::Missing => return Ok(Err(Mute { node: 0 })),
            RuleForm::Form(form) => form,
        };
        let dimension = self.language.dimension(node.category).ok_or("no category")?;
        let strings = (0..dimension)
            .map(|constituent| self.build_string(node, key, constituent))
            .try_collect(self.heap)?;
        Ok(Ok(Said { form, strings }))
    }

    // All trees with a function at the root and arguments among the trees, put behind others.
    fn add_trees(
        &self,
        function: u8,
        trees: &[Built],
        deeper: &mut Vec<Built>,
    ) -> Result<(), Fail> {
        let arguments = self.language.arguments(function).ok_or("no function")?;
        let category = self.language.result(function).ok_or("no function")?;
        let categories = list_categories(self.heap, arguments)?;
        for arguments in list_choices(self.heap, trees, categories.as_slice())? {
            let node = Node {
                function,
                category,
                arguments,
            };
            deeper.push(Built {
                category,
                code: node.code(self.heap)?,
                outcome: self.build_outcome(&node)?,
            })?;
        }
        Ok(())
    }
}

// All trees of the language that are no deeper than that, of every category.
pub fn build_trees<L: Language>(heap: Global, language: &L, depth: u8) -> Result<Vec<Built>, Fail> {
    let builder = Builder { heap, language };
    let mut trees = Vec::new(heap);
    for _ in 0..depth {
        let mut deeper = Vec::new(heap);
        for function in 0..language.functions() {
            builder.add_trees(function, trees.as_slice(), &mut deeper)?;
        }
        trees = deeper;
    }
    Ok(trees)
}
