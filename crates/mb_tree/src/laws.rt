// What holds of forms.
ghost use Rattle.std.specs.Prelude.{◌≡◌, Some};
ghost use Rattle.mb_tree.specs.Roses.{Shape};
ghost use Rattle.mb_tree.specs.Form.{Form, form_of, kind_of, parts_of};

/// A form tells the kind of its node, and its parts are all the node's children, in their order.
pub fn a_form_tells_its_node()
    ensures { (node : Shape) (form : Form) → form_of node ≡ Some form →
        (kind_of form ≡ node.label.kind) × (parts_of form ≡ node.children) }
{}
