//! Inputs with switches pressed or set.

use vcs_machine::Input;

/// Each switch alone, and four of them together.
pub fn each_switch() -> [Input; 16] {
    let mut inputs = [Input::none(); 16];
    inputs[0].left.right = true;
    inputs[1].left.left = true;
    inputs[2].left.down = true;
    inputs[3].left.up = true;
    inputs[4].left.fire = true;
    inputs[5].right.right = true;
    inputs[6].right.left = true;
    inputs[7].right.down = true;
    inputs[8].right.up = true;
    inputs[9].right.fire = true;
    inputs[10].reset = true;
    inputs[11].select = true;
    inputs[12].mono = true;
    inputs[13].left_a = true;
    inputs[14].right_a = true;
    inputs[15].left.fire = true;
    inputs[15].right.fire = true;
    inputs[15].left.up = true;
    inputs[15].reset = true;
    inputs
}
