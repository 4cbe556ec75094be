//! What is evaluated in place of an undefined value (ECMA-262, 8.6.3).
ghost use Rattle.js_machine.specs.Defaults.{DefaultsTo};

use js_tree::NodeId;
use world_heap::Value;

/// What is evaluated in place of a value: the default, where the value is undefined and there is one.
#[tactic(auto, unfolding(js_semantics::specs::Access::or_default))]
pub fn default_of(value: &Value, default: Option<NodeId>) -> Option<NodeId>
    ensures { DefaultsTo default value.now result }
{
    match value {
        Value::Undefined => default,
        _ => None,
    }
}
