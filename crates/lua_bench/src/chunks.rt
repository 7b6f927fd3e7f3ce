/// Recursive calls.
const FIB: &[u8] = b"
local n = ...
local function fib(n)
  if n < 2 then return n end
  return fib(n - 1) + fib(n - 2)
end
return fib(n)
";

/// Turns of one loop, with arithmetic.
const LOOP: &[u8] = b"
local n = ...
local sum = 0
for i = 1, n do
  sum = sum + (i & 7) * 3
end
return sum
";

/// Turns of a loop in a loop, with a comparison.
const NESTED: &[u8] = b"
local n = ...
local count = 0
for i = 1, n do
  for j = 1, n do
    if j < i then count = count + 1 end
  end
end
return count
";

/// The chunk of a name. It takes a count, and returns an integer.
pub fn chunk(name: &str) -> Option<&'static [u8]> {
    match name {
        "fib" => Some(FIB),
        "loop" => Some(LOOP),
        "nested" => Some(NESTED),
        _ => None,
    }
}
