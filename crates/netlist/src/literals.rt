// Literals and variables: the one place where one becomes the other.
ghost use Rattle.std.specs.Prelude.{◌≡◌};
ghost use Rattle.netlist.specs.Literals.{literal_of, variable_of, is_inverted, wrapped};

// A literal: 2v for the variable v, 2v + 1 for its inverse.
#[derive(Clone, Copy)]
pub struct Literal(pub u16);

// The index of a variable.
#[derive(Clone, Copy)]
pub struct Variable(pub u16);

impl Literal {
    // The variable of a literal.
    pub fn variable(self) -> Variable
        ensures { result.0 ≡ variable_of self.0 }
    {
        Variable(self.0 / 2)
    }

    // Whether a literal is its variable's inverse.
    pub fn is_inverted(self) -> bool
        ensures { result ≡ is_inverted self.0 }
    {
        self.0 % 2 == 1
    }
}

impl Variable {
    // The literal of a variable, or of its inverse; doubling wraps past variable 32,767.
    pub fn literal(self, inverted: bool) -> Literal
        ensures { result.0 ≡ literal_of (wrapped self.0) inverted }
    {
        let doubled = 2 * (self.0 % 32768);
        if inverted {
            Literal(doubled + 1)
        } else {
            Literal(doubled)
        }
    }
}
