//! What both files of a chart are made from.
use crate::said::Said;
use c_functions::function_offsets::OTHER_FUNCTIONS;
use c_shape::FileShape;
use c_subset::Function;
use c_text::Labels;
use code_language::Code;

/// What both files of a chart are made from.
#[derive(Drop)]
pub(crate) struct Made<'a> {
    /// The name of the chart.
    pub name: &'a str,
    /// What names in the file are made of.
    pub labels: Labels<'a>,
    /// What the procedures do.
    pub said: Said<'a>,
    /// What the C is written for.
    pub shape: FileShape<'a>,
    /// The code.
    pub code: &'a Code,
    /// The functions, by number.
    pub functions: Vec<Function>,
}

impl Made<'_> {
    ghost use Rattle.std.specs.Prelude.{◌≡◌, ◌<◌, Some, length, slice_get};
    ghost use Rattle.c_subset.specs.Trees as c;
    ghost use Rattle.c_subset.specs.Lines.{IsFunction};
    ghost use Rattle.c_file.specs.Made.{IsMade, functions_of};

    /// How many functions there are: those of procedures, and others.
    pub fn count(&self) -> u32
        requires is { IsMade self.now }
        ensures { result ≡ length (functions_of self.now) }
    {
        self.shape.procs + OTHER_FUNCTIONS
    }

    /// The function of that number.
    pub fn function(&self, number: u32) -> &Function
        requires is { IsMade self.now }
        requires within { number < length (functions_of self.now) }
        ensures { (g : c.Function) → slice_get (functions_of self.now) number ≡ Some g →
            IsFunction result.now g }
    {
        &self.functions[number as usize]
    }
}
