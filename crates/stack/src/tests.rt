// What a stack does over three cells, and what a caller knows of a push and the pop after it.
ghost use Rattle.std.specs.Prelude.{◌≡◌, true, false, [], ◌∷◌, length};
ghost use Rattle.stack.specs.Held.{held, room, lender};

use super::Stack;

// A value that is pushed and popped comes back, and what was held stays; only a full stack refuses.
fn push_pop<T: Copy>(stack: &mut Stack<T>, value: T, place: &mut T) -> bool
    ensures back { result ≡ true → place.new ≡ value }
    ensures kept { held stack.new ≡ held stack.old }
    ensures full { result ≡ false → length (held stack.old) ≡ room stack.old }
    ensures owner { lender stack.new ≡ lender stack.old }
{
    stack.push(value) && stack.pop(place)
}

// The lender has its cells back, with the value in the first of them.
fn first(value: u8) -> [u8; 3]
    ensures { result ≡ value ∷ 0 ∷ 0 ∷ [] }
{
    let mut cells = [0; 3];
    let mut stack = Stack::new(&mut cells);
    stack.push(value);
    cells
}

#[test]
fn last_in_first_out(rt: HostRuntime) {
    let mut cells = [0u8; 3];
    let mut stack = Stack::new(&mut cells);
    assert!(rt; stack.is_empty());
    assert!(rt; stack.push(1) && stack.push(2) && stack.push(3));
    assert!(rt; !stack.push(4));
    assert_eq!(rt; stack.len(), 3);
    let mut top = 0;
    assert!(rt; stack.pop(&mut top) && top == 3);
    assert!(rt; stack.pop(&mut top) && top == 2);
    assert!(rt; stack.pop(&mut top) && top == 1);
    assert!(rt; !stack.pop(&mut top) && top == 1);
}
