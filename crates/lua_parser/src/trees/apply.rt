//! Each effect of the table.

ghost use Rattle.std.specs.Prelude.{◌≡◌, OnOk, option_map, option_copied};
ghost use Rattle.lua_grammar.specs.Lexeme.{lexeme_of};
ghost use Rattle.lua_grammar.specs.Parts.{effect_of, effects_of};

use super::Trees;
use lua_grammar::Effect;
use lua_tree::Token;
use sk_types::NoMemory;

impl Trees {
    /// Does what an effect says, with the token that is taken, where one is.
    pub fn apply(&mut self, token: Option<&Token>, effect: Effect) -> Result<(), NoMemory>
        ensures { OnOk result (self.new ≡ effect_of (option_map lexeme_of (option_copied token.entry)) effect self.old) }
    {
        match effect {
            Effect::Line => self.keep_line(token),
            Effect::Literal => self.put_literal(token),
            Effect::Variable => self.put_variable(token),
            Effect::Name => self.put_name(token),
            Effect::FirstName => self.put_first_name(token),
            Effect::NextName => self.add_name(token),
            Effect::AddDot => self.add_dot(token),
            Effect::OpenExprs => self.open_exprs(),
            Effect::OpenOperands => self.open_operands(),
            Effect::OpenFields => self.open_fields(),
            Effect::OpenNames => self.open_names(),
            Effect::OpenSelf => self.open_self(),
            Effect::OpenBranches => self.open_branches(),
            Effect::OpenBlock => self.open_block(),
            Effect::AddExpr => self.add_expr(),
            Effect::OnlyExpr => self.make_only_expr(),
            Effect::Enclose => self.enclose(),
            Effect::AddIndex => self.add_index(),
            Effect::AddCall => self.add_call(),
            Effect::AddMethod => self.add_method(),
            Effect::EndSuffixes => self.end_suffixes(),
            Effect::Unary(op) => self.make_unary(op),
            Effect::AddOperand(op) => self.add_operand(op),
            Effect::EndChain => self.end_chain(),
            Effect::TextKey => self.make_text_key(),
            Effect::NameVariable => self.make_variable(),
            Effect::KeyField => self.add_key_field(),
            Effect::ItemField => self.add_item_field(),
            Effect::Table => self.make_table(),
            Effect::Body(has_dots) => self.make_body(has_dots),
            Effect::Function => self.make_function(),
            Effect::FirstTarget => self.put_first_target(),
            Effect::NextTarget => self.add_target(),
            Effect::Assign => self.assign(),
            Effect::AssignFunction => self.assign_function(),
            Effect::Invoke => self.invoke(),
            Effect::Break => self.add_break(),
            Effect::Do => self.add_do(),
            Effect::While => self.add_while(),
            Effect::Repeat => self.add_repeat(),
            Effect::AddBranch => self.add_branch(),
            Effect::If => self.add_if(),
            Effect::IfElse => self.add_if_else(),
            Effect::Numeric => self.add_numeric(),
            Effect::NumericBy => self.add_numeric_by(),
            Effect::Generic => self.add_generic(),
            Effect::LocalAlone => self.add_local_alone(),
            Effect::Local => self.add_local(),
            Effect::LocalFunction => self.add_local_function(),
            Effect::EndBlock => self.end_block(),
            Effect::Return => self.end_with_return(),
        }
    }

    /// Does what the effects say, in order.
    pub fn apply_all(&mut self, token: Option<&Token>, effects: &[Effect]) -> Result<(), NoMemory>
        ensures { OnOk result (self.new ≡ effects_of (option_map lexeme_of (option_copied token.entry)) effects.now self.old) }
    {
        for effect in effects {
            self.apply(token, *effect)?;
        }
        Ok(())
    }
}
