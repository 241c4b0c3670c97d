//! Functions by their names, and what names mean in them.
ghost use Rattle.std.specs.Prelude.{◌≡◌, map, Option};
ghost use Rattle.std.specs.Option.{option_map};
ghost use Rattle.chart_tree.specs.Views.{expr_of};
ghost use Rattle.statechart_tree.specs.Views.{function_of};
ghost use Rattle.statechart_meaning.specs.Functions.{scope_in, calls_of};
ghost use Rattle.statechart_scope.specs.Frames.{frames_of};
ghost use Rattle.statechart_names.specs.Seen.{scope_seen, declared_seen};
ghost use Rattle.statechart_expressions.specs.Called.{called_seen, called};

use chart_tree::ExprText;
use statechart_names::Scope;
use statechart_tree::Function;

/// A function, and those that are declared above it.
#[derive(Clone, Copy)]
pub struct Called<'a> {
    /// The function.
    pub function: &'a Function,
    /// The functions that it sees.
    pub above: &'a [Function],
}

/// The first function of the name.
pub fn function_named<'a>(functions: &'a [Function], name: &str) -> Option<Called<'a>>
    ensures { option_map called_seen result ≡ called (map function_of functions.now) name.now }
{
    for (index, function) in functions.iter().enumerate() {
        if function.name.text.text() == name {
            return Some(Called {
                function,
                above: &functions[..index],
            });
        }
    }
    None
}

/// What names mean in a function that is called: it stands in the statechart, and sees the functions
/// above it.
pub fn inside<'a>(scope: &Scope<'a>, called: Called<'a>, arguments: &'a [ExprText]) -> Scope<'a>
    ensures functions { result.functions.now ≡ called.entry.above.now }
    ensures scope { scope_seen result ≡ scope_in (frames_of scope.now.root.now) (declared_seen scope.now.declared)
        (calls_of (frames_of scope.now.root.now) (declared_seen scope.now.declared)
        (map function_of called.entry.above.now))
        (function_of called.entry.function.now) (map expr_of arguments.now) }
{
    Scope {
        params: called.function.params.items(),
        arguments,
        frames: scope.root,
        declared: scope.declared,
        root: scope.root,
        functions: called.above,
    }
}
